//! A run of items that is written no more, and so may be shared.

ghost use Rattle.std.specs.Prelude.{◌≡◌, IfOk, IfErr};

use super::share::Share;
use std::alloc::{AllocError, AllocFailed, Global};
use std::marker::Model;
use std::sync::Arc;

#[derive(Drop)]
pub struct Chunk<T: Share> {
    items: Arc<Vec<T>>,
}

impl<T: Share> Model for Chunk<T> {
    ghost use Rattle.std.specs.Prelude.{List};
    ghost use Rattle.std.specs.Arc.{arc_value};
    ghost use Rattle.std.specs.Coded.{coded_list};

    ghost Value = { List T };

    ghost coded = { coded_list T.code };

    ghost view = { λ a. (arc_value a.items).items };
}

impl<T: Share> Chunk<T> {
    /// A chunk of these items; they come back where memory is refused.
    pub(crate) fn of(alloc: Global, items: Vec<T>) -> Result<Chunk<T>, AllocFailed<Vec<T>>>
        ensures ok { IfOk result (λ c. c ≡ items.items) }
        ensures err { IfErr result (λ e. e.value ≡ items) }
    {
        match Arc::new(alloc, items) {
            Ok(items) => Ok(Chunk { items }),
            Err(refused) => Err(refused),
        }
    }

    /// A share of the same items.
    pub(crate) fn share(&self) -> Result<Chunk<T>, AllocError>
        ensures { IfOk result (λ c. c ≡ self.now) }
    {
        Ok(Chunk {
            items: Arc::try_clone(&self.items)?,
        })
    }

    pub(crate) fn items(&self) -> &[T]
        ensures { result.now ≡ self.now }
    {
        self.items.as_slice()
    }
}
