//! What lies in the lock's slot while the lock is free.
ghost use Rattle.std.specs.Prelude.{◌≡◌, List, [], ◌∷◌, Some};
ghost use Rattle.lasp_histlock.specs.Prelude.{IsCarrier};

use crate::kept::Kept;
use crate::rule::{Known, Seat};
use atomic_table::Badge;
use std::marker::Model;

/// The value, and beside it the seat that carries the whole history.
#[derive(Drop)]
pub struct Content<T: Kept> {
    value: T,
    carrier: Badge<Known<T>>,
}

impl<T: Kept> Model for Content<T> {
    ghost use Rattle.std.specs.Prelude.{List};
    ghost use Rattle.atomic_table.specs.Seated.{TableId};
    ghost use Rattle.lasp_histlock.specs.declared.view.View.{View};
    ghost use Rattle.lasp_histlock.specs.Content.{CarriesValue};

    ghost Value = { TableId × List (View T.Item T.Frame) };

    ghost view = { λ c. (c.carrier.table_id, c.carrier.views) };

    ghost invariant = { λ c. CarriesValue c.carrier.views (T.list c.value) (T.frame c.value) };
}

impl<T: Kept + Drop> Content<T> {
    pub fn new(value: T, carrier: Seat<T>) -> Content<T>
        requires empty { carrier.me.1 ≡ [] }
        requires carrier { IsCarrier carrier.me.0 }
        requires value { (T.list value ≡ carrier.me.0.seen) × (Some (T.frame value) ≡ carrier.me.0.frame) }
        ensures { result ≡ (carrier.table_id, carrier.me.0 ∷ []) }
    {
        Content {
            value,
            carrier: carrier.into_badge(),
        }
    }

    pub fn open(self) -> (T, Seat<T>)
        ensures seat { (result.1.table_id ≡ self.0) × (result.1.me.1 ≡ []) × IsCarrier result.1.me.0 }
        ensures value { (T.list result.0 ≡ result.1.me.0.seen) × (Some (T.frame result.0) ≡ result.1.me.0.frame) }
    {
        let Content { value, carrier } = self;
        (value, carrier.into_seat())
    }
}
