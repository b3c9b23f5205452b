//! The number of a set that grew, from the number before.

ghost use Rattle.std.specs.Prelude.{◌≡◌, ◌+◌, ◌*◌, ◌^◌, ◌≤◌, IfOk, IsTrue, fold, length};
ghost use Rattle.lasp_setops.specs.Prelude.{IsAtMost, visible, row_values, fold_set, lift_of, AreSized, IsWithinLimits, taken_lift, turned, turns};

use super::asked::Asked;
use super::group::FoldGroup;
use super::step;
use super::turns::Turns;
use lasp_fns::StoredLift;
use lasp_logset::OrSet;
use std::alloc::AllocError;

/// The fold of `after`, from that of `before`: with the lifts of the values that came to be visible, without those of the values that ceased to be.
/// It costs two look-ups for each value of `after`, whose rows it sorts, a call for each value that came or went, and an insertion for each change of a set that has no table.
pub fn fold_change<G: FoldGroup>(
    g: &G,
    lift: &StoredLift,
    old: i128,
    before: &OrSet,
    after: &OrSet,
) -> Result<i128, AllocError>
    requires more { IsAtMost before.now after.now }
    requires limits { IsWithinLimits after.now }
    requires old { old ≡ fold_set (G.combined g.now) (G.unit g.now) (taken_lift (G.taken g.now) (lift_of lift.now)) before.now }
    ensures { IfOk result (λ n. n ≡ fold_set (G.combined g.now) (G.unit g.now) (taken_lift (G.taken g.now) (lift_of lift.now)) after.now) }
{
    g.known();
    before.ascends();
    after.ascends();
    after.recall_ints();
    let earlier = Asked::of(before)?;
    let later = Asked::of(after)?;
    along(g, lift, old, &earlier, &later, after)
}

/// Corrects a number for each value of a set's rows that came or went.
fn along<G: FoldGroup>(
    g: &G,
    lift: &StoredLift,
    old: i128,
    before: &Asked,
    after: &Asked,
    among: &OrSet,
) -> Result<i128, AllocError>
    requires sized { AreSized among.now }
    requires in_group { IsTrue (G.is_member g.now old) }
    requires small { G.size g.now old + 2 ^ 63 * length among.now ≤ 2 ^ 99 }
    ensures { IfOk result (λ n. n ≡ fold (turned (G.combined g.now) (G.undone g.now) (taken_lift (G.taken g.now) (lift_of lift.now))) old (turns (visible before.now) (visible after.now) (row_values among.now))) }
{
    among.ascends();
    let mut total = old;
    let mut pass = Turns::among(among)?;
    while let Some(turn) = pass.next(before, after) {
        let n = lift.call(turn.value);
        total = step::turned(g, total, n, turn.came);
    }
    Ok(total)
}
