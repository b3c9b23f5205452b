//! The table of a lock: word 0 is 1 while somebody has the turn, word 1 is the number of entries, and the one slot holds the content.
ghost use Rattle.lasp_histlock.specs.Prelude.{Keeps, founder};

use crate::content::Content;
use crate::kept::Kept;
use crate::view::View;
use atomic_table::{Shared, TableRule};

pub type Known<T> = View<<T as Kept>::Item, <T as Kept>::Frame>;

pub type Slot<T> = Option<Content<T>>;

pub type Seat<T> = atomic_table::Seat<Slot<T>, Known<T>>;

pub type Board<T> = Shared<Slot<T>, Known<T>, T, Rule>;

/// The number of the word that says whether the lock is free.
pub const TURN: usize = 0;

/// The number of the word that counts the entries.
pub const COUNT: usize = 1;

pub struct Rule;

impl<T: Kept> TableRule<Slot<T>, Known<T>, T> for Rule {
    ghost holds = { λ value. Keeps T.names T.may (T.frame value) };

    ghost first = { λ value. founder (T.frame value) };
}
