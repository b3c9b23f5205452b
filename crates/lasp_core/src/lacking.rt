//! The value that a parked read is known to lack, of those that it waits for.

ghost use Rattle.std.specs.Prelude.{◌≡◌, IsTrue};
ghost use Rattle.model_states.specs.Content.{of_set};
ghost use Rattle.lasp_core.specs.Prelude.{content_of, threshold_of, read_of};
ghost use Rattle.lasp_core.specs.Lacking.{LacksAt, LacksValue};

use crate::read::ReadNo;
use lasp_logset::OrSet;
use lasp_state::{State, Threshold};
use lasp_value::Values;

impl ReadNo {
    /// Looks for a value that a state of its variable lacks, from the one on that was lacking last.
    pub(crate) fn seek(&mut self, state: &State)
        ensures same { read_of self.new ≡ read_of self.old }
        ensures found { IsTrue self.new.is_lacking → LacksValue (read_of self.new).threshold (content_of state.now) self.new.place }
    {
        self.place = self.threshold.seek(state, self.place);
        self.is_lacking = lacks_value(&self.threshold, state, self.place);
    }
}

/// Whether a set lacks the value at a place of those that a threshold asks for. Of other states it isn't told.
fn lacks_value(threshold: &Threshold, state: &State, place: u64) -> bool
    ensures { IsTrue result → LacksValue (threshold_of threshold.now) (content_of state.now) place }
{
    match (threshold, state) {
        (Threshold::Added(values), State::Set(set)) => lacks_at(set, values, place, false),
        (Threshold::Removed(values), State::Set(set)) => lacks_at(set, values, place, true),
        (_, _) => false,
    }
}

/// Whether there is a value at a place of which a set has no row, or no dead one where `dead` is true.
fn lacks_at(set: &OrSet, values: &Values, place: u64, dead: bool) -> bool
    ensures { IsTrue result → LacksAt dead (of_set set.now) values.now place }
{
    place < values.len() && !set.has_row(values.at(place), dead)
}
