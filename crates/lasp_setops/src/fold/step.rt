//! One step of a fold.

ghost use Rattle.std.specs.Prelude.{◌≡◌, ◌+◌, ◌^◌, ◌≤◌, IsTrue, if◌then◌else◌};

use super::group::FoldGroup;

/// The number after a value came, which brings this lift, or went.
pub(crate) fn turned<G: FoldGroup>(g: &G, total: i128, n: i64, came: bool) -> i128
    requires in_group { IsTrue (G.is_member g.now total) }
    requires small { G.size g.now total ≤ 2 ^ 99 }
    ensures exact { result ≡ (if came then G.combined g.now total (G.taken g.now n) else G.combined g.now total (G.undone g.now (G.taken g.now n))) }
    ensures in_group { IsTrue (G.is_member g.now result) }
    ensures small { G.size g.now result ≤ G.size g.now total + 2 ^ 63 }
{
    g.known();
    let number = g.lift_in(n);
    if came {
        return g.op(total, number);
    }
    let gone = g.inverse(number);
    g.op(total, gone)
}
