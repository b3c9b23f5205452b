//! The join of folds.

ghost use Rattle.std.specs.Prelude.{◌≡◌, ◌≢◌, ◌↔◌, ◌⊎◌, IfOk, OnOk, OnErr, IsTrue};
ghost use Rattle.model_states.specs.Content.{join_contents, IsContentAtMost};
ghost use Rattle.lasp_state.specs.State.{content_of, shape_of, number_of, joined_number};

use super::state::State;
use std::alloc::AllocError;

/// Takes the other state where that is greater, and tells whether it is. It costs a look-up for each of the other's rows; the rows are shared.
pub(crate) fn take_greater(mine: &mut State, other: &State) -> Result<bool, AllocError>
    requires shape { shape_of mine.old ≡ shape_of other.now }
    requires nested { IsContentAtMost (content_of mine.old) (content_of other.now) ⊎ IsContentAtMost (content_of other.now) (content_of mine.old) }
    ensures shape { shape_of mine.new ≡ shape_of mine.old }
    ensures ok { OnOk result (content_of mine.new ≡ join_contents (content_of mine.old) (content_of other.now)) }
    ensures number { OnOk result (number_of mine.new ≡ joined_number mine.old other.now) }
    ensures grew { IfOk result (λ grew. IsTrue grew ↔ (content_of mine.new ≢ content_of mine.old)) }
    ensures err { OnErr result (mine.new ≡ mine.old) }
{
    mine.recall();
    other.recall();
    if other.le(mine) {
        return Ok(false);
    }
    *mine = other.try_clone()?;
    Ok(true)
}
