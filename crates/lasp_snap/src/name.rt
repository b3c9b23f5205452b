//! Which shelf it is.
ghost use Rattle.logbook.specs.Pages.{Book, book_coded};
ghost use base.Fml.{ftrue};

use std::marker::Model;

/// Which book the log of a shelf is. No value of it is made: it stands in views alone.
pub struct Name {
    pub ghost book: { Book } by { book_coded },
}

impl Model for Name {
    ghost also_owns = { λ _. ftrue };
}
