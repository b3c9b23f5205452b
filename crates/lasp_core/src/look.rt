//! What a state is asked by a read that is open for one look alone.

ghost use Rattle.std.specs.Prelude.{◌≡◌, IsTrue};
ghost use Rattle.lasp_core.specs.Prelude.{suits, meets, content_of, threshold_of, HasLeast};
ghost use Rattle.lasp_state.specs.State.{shape_of};

use lasp_state::{State, Threshold};

/// Whether a state has come to a threshold. Where it is known to hold what the threshold asks for at least, it costs the comparison of two sizes, but where these are equal for `above`.
pub fn is_met_by(threshold: &Threshold, s: &State, is_known: bool) -> bool
    requires fits { IsTrue (suits (threshold_of threshold.now) (shape_of s.now)) }
    requires known { IsTrue is_known → HasLeast (threshold_of threshold.now) (content_of s.now) }
    ensures { result ≡ meets (threshold_of threshold.now) (content_of s.now) }
{
    if !is_known {
        return threshold.meets(s);
    }
    match threshold {
        Threshold::AtLeast(_) => true,
        Threshold::Above(bound) => {
            bound.recall();
            s.recall();
            s.size() > bound.size() || !s.le(bound)
        }
        _ => threshold.meets(s),
    }
}
