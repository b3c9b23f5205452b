//! The number of a set that grew, through a library that counts its calls.

ghost use Rattle.std.specs.Prelude.{◌≡◌, ◌+◌, ◌*◌, ◌^◌, ◌<◌, ◌≤◌, IfOk, IsTrue, fold, length};
ghost use Rattle.lasp_setops.specs.Prelude.{IsAtMost, visible, row_values, changed, fold_set, IsChange, lifts_of, lift_op_at, library_of, ticks_of, AreSized, IsWithinLimits, taken_lift, turned, turns};

use super::asked::Asked;
use super::group::FoldGroup;
use super::step;
use super::turns::Turns;
use lasp_fns::StepLib;
use lasp_logset::OrSet;
use std::alloc::AllocError;

/// The fold of `after` by the lift at a place, from that of `before`. It calls the lift at most once for each row that changed between the two.
/// It costs two look-ups for each value of `after`, whose rows it sorts, and an insertion for each change of a set that has no table.
pub fn fold_counted<G: FoldGroup>(
    g: &G,
    lib: &mut StepLib,
    lift: u32,
    old: i128,
    before: &OrSet,
    after: &OrSet,
) -> Result<i128, AllocError>
    requires place { lift < length (lifts_of (library_of lib.old)) }
    requires more { IsAtMost before.now after.now }
    requires limits { IsWithinLimits after.now }
    requires old { old ≡ fold_set (G.combined g.now) (G.unit g.now) (taken_lift (G.taken g.now) (lift_op_at (library_of lib.old) lift)) before.now }
    ensures exact { IfOk result (λ n. n ≡ fold_set (G.combined g.now) (G.unit g.now) (taken_lift (G.taken g.now) (lift_op_at (library_of lib.old) lift)) after.now) }
    ensures library { library_of lib.new ≡ library_of lib.old }
    ensures ticks { ticks_of lib.new ≤ ticks_of lib.old + length (changed before.now after.now) }
{
    g.known();
    before.ascends();
    after.ascends();
    after.recall_ints();
    let earlier = Asked::of(before)?;
    let later = Asked::of(after)?;
    along(g, lib, lift, old, &earlier, &later, after)
}

/// The same from the rows that changed: any rows that joined into `before` give `after`. It costs two look-ups and at most one call for each of them, which it sorts, and an insertion for each change of a set that has no table.
pub fn fold_increment<G: FoldGroup>(
    g: &G,
    lib: &mut StepLib,
    lift: u32,
    old: i128,
    before: &OrSet,
    change: &OrSet,
    after: &OrSet,
) -> Result<i128, AllocError>
    requires place { lift < length (lifts_of (library_of lib.old)) }
    requires change { IsChange before.now change.now after.now }
    requires limits { IsWithinLimits after.now }
    requires old { old ≡ fold_set (G.combined g.now) (G.unit g.now) (taken_lift (G.taken g.now) (lift_op_at (library_of lib.old) lift)) before.now }
    ensures exact { IfOk result (λ n. n ≡ fold_set (G.combined g.now) (G.unit g.now) (taken_lift (G.taken g.now) (lift_op_at (library_of lib.old) lift)) after.now) }
    ensures library { library_of lib.new ≡ library_of lib.old }
    ensures ticks { ticks_of lib.new ≤ ticks_of lib.old + length change.now }
{
    g.known();
    before.ascends();
    after.ascends();
    after.recall_ints();
    let earlier = Asked::of(before)?;
    let later = Asked::of(after)?;
    along(g, lib, lift, old, &earlier, &later, change)
}

/// Corrects a number for each value of a set's rows that came or went.
fn along<G: FoldGroup>(
    g: &G,
    lib: &mut StepLib,
    lift: u32,
    old: i128,
    before: &Asked,
    after: &Asked,
    among: &OrSet,
) -> Result<i128, AllocError>
    requires place { lift < length (lifts_of (library_of lib.old)) }
    requires sized { AreSized among.now }
    requires in_group { IsTrue (G.is_member g.now old) }
    requires small { G.size g.now old + 2 ^ 63 * length among.now ≤ 2 ^ 99 }
    ensures exact { IfOk result (λ n. n ≡ fold (turned (G.combined g.now) (G.undone g.now) (taken_lift (G.taken g.now) (lift_op_at (library_of lib.old) lift))) old (turns (visible before.now) (visible after.now) (row_values among.now))) }
    ensures library { library_of lib.new ≡ library_of lib.old }
    ensures ticks { ticks_of lib.new ≤ ticks_of lib.old + length (turns (visible before.now) (visible after.now) (row_values among.now)) }
{
    among.ascends();
    let mut total = old;
    let mut pass = Turns::among(among)?;
    while let Some(turn) = pass.next(before, after) {
        let n = lib.call_lift(lift, turn.value);
        total = step::turned(g, total, n, turn.came);
    }
    Ok(total)
}
