//! The spies of a new shelf.

ghost use Rattle.std.specs.Prelude.{◌≡◌, ◌++◌, ◌∷◌, [], All, IfOk, IfSome, IfNone, length};
ghost use Rattle.left_right.specs.Sides as sides;
ghost use Rattle.lasp_snap.specs.Views.{IsNewSpy, IsWriting, shelf_view};

use super::front::Front;
use super::rule::Copies;
use super::spy::Spy;
use std::alloc::{AllocError, Global};
use std::marker::Model;

/// Spies that nobody took yet. Contracts see them as a list.
#[derive(Drop)]
pub struct Spies {
    spies: Vec<Spy>,
}

impl Model for Spies {
    ghost use Rattle.std.specs.Prelude.{List};
    ghost use Rattle.std.specs.Coded.{coded_list};
    ghost use Rattle.lasp_snap.specs.Views.{SpyView, coded_spy};

    ghost Value = { List SpyView };

    ghost coded = { coded_list coded_spy };

    ghost view = { λ a. a.spies.items };
}

impl Spies {
    /// So many spies of the shelf that this writer is of.
    pub(crate) fn of(
        alloc: Global,
        writer: &mut Copies,
        start: &Front,
        count: u32,
    ) -> Result<Spies, AllocError>
        requires writing { IsWriting writer.old.desk.shown.value (sides.view writer.old.desk.place) }
        requires start { (start.now.log ≡ []) × (start.now.book ≡ writer.old.desk.shown.value.front.book) }
        ensures same { (writer.new.desk.shown.value ≡ writer.old.desk.shown.value) × (sides.view writer.new.desk.place ≡ sides.view writer.old.desk.place) }
        ensures count { IfOk result (λ all. length all ≡ count) }
        ensures spies { IfOk result (λ all. All (IsNewSpy (shelf_view writer.old.desk.shown.value)) all) }
    {
        let mut spies = Vec::new(alloc);
        for _made in 0..count {
            spies.push(Spy::of(writer, start)?)?;
        }
        Ok(Spies { spies })
    }

    /// The number of spies.
    pub fn len(&self) -> u64
        ensures { result ≡ length self.now }
    {
        self.spies.len() as u64
    }

    /// The last one; none exactly where all were taken.
    pub fn take_spy(&mut self) -> Option<Spy>
        ensures some { IfSome result (λ spy. self.old ≡ self.new ++ spy ∷ []) }
        ensures none { IfNone result ((self.old ≡ []) × (self.new ≡ [])) }
    {
        self.spies.pop()
    }
}
