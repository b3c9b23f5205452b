//! What makes later calls cheap and changes nothing that is seen.

ghost use Rattle.std.specs.Prelude.{◌≡◌};

use super::state::State;
use lasp_value::Value;

impl State {
    /// Puts what came behind a table that others shared into it, where no one else has it by now. It costs a look-up for each of these rows or elements.
    pub fn gather(&mut self)
        ensures { self.new ≡ self.old }
    {
        match self {
            State::Set(set) => set.gather(),
            State::Grow(values) => values.gather(),
            State::Count(_) => {}
            State::Max(_) => {}
            State::Fold(set, _) => set.gather(),
        }
    }

    /// Closes the log, so that a share of it costs a count for each of a few chunks, where no one else has the table.
    pub fn close(&mut self)
        ensures { self.new ≡ self.old }
    {
        match self {
            State::Set(set) => set.close(),
            State::Grow(values) => values.close(),
            State::Count(_) => {}
            State::Max(_) => {}
            State::Fold(set, _) => set.close(),
        }
    }

    /// Sees that the live rows of a value are found without a pass, where no one else has the table. It costs a look-up for each row or element that came since the last call.
    pub fn index_values(&mut self)
        ensures { self.new ≡ self.old }
    {
        match self {
            State::Set(set) => set.index_values(),
            State::Grow(values) => values.index_values(),
            State::Count(_) => {}
            State::Max(_) => {}
            State::Fold(set, _) => set.index_values(),
        }
    }

    /// Sees that all rows of a value of a set, or of the set that a fold covers, dead ones too, and the elements of a grow-only set are found without a pass, where no one else has the table. It costs a look-up for each row or element that came since the last call.
    pub fn index_rows(&mut self)
        ensures { self.new ≡ self.old }
    {
        match self {
            State::Set(set) => set.index_rows(),
            State::Fold(set, _) => set.index_rows(),
            State::Grow(values) => values.index_values(),
            State::Count(_) | State::Max(_) => {}
        }
    }

    /// Sees that a pass over the rows of a set in their order costs little more than a comparison for each, where no one else has the table. It costs a look at 64 places, and where some eighth of the rows stand out of order, an insertion for each.
    pub fn order_rows(&mut self)
        ensures { self.new ≡ self.old }
    {
        if let State::Set(set) = self {
            set.order_rows();
        }
    }

    /// `index_values` of a set, which leaves out which rows of a value are dead by now, so that removing it again costs nothing.
    pub fn prune_value(&mut self, value: &Value)
        ensures { self.new ≡ self.old }
    {
        if let State::Set(set) = self {
            set.prune_value(value);
        }
    }
}
