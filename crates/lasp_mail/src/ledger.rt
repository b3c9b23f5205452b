//! The ledger of a mailbox: a table of one word and no slot, at which each seat knows a beginning of what was put.
//!
//! The queue's calls tell what they do to it only to who may wait, and a mailbox is closed without waiting. So what the two ends
//! know of each other stands here, where each step tells and none waits.
ghost use Rattle.lasp_mail.specs.Prelude.{Keeps, founder};

use crate::framed::Framed;
use crate::item::Item;
use crate::witness::Witness;
use atomic_table::{Shared, TableRule};

pub type Known<T> = Witness<Item<T>, <T as Framed>::Frame>;

pub type Seat<T> = atomic_table::Seat<(), Known<T>>;

pub type Ledger<T> = Shared<(), Known<T>, T, OneList>;

/// The number of the ledger's one word, which no step changes.
pub const WORD: usize = 0;

/// Everybody knows a beginning of one list, in which each body has the frame.
pub struct OneList;

impl<T: Framed> TableRule<(), Known<T>, T> for OneList {
    ghost holds = { λ like. Keeps (λ x. T.frame x.body) (T.frame like) };

    ghost first = { λ like. founder (T.frame like) };
}
