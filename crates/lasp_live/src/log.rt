//! What a feeder keeps while it runs: its diary, what it did itself, and who has ended.

ghost use Rattle.std.specs.Prelude.{◌≡◌, ◌<◌, ℕ, true, length, IsTrue};
ghost use Rattle.lasp_live.specs.Prelude.{has_ended};

use crate::diary::Diary;
use crate::own::Own;

/// What a feeder has noted, done and heard.
#[derive(Drop)]
pub(crate) struct Log {
    pub(crate) diary: Diary,
    pub(crate) own: Own,
    /// How many letters it sent to each other node.
    pub(crate) sent: u64,
    /// Of each node, whether nothing more comes of it; nothing ever does of the feeder's own.
    pub(crate) ended: Vec<bool>,
}

/// Whether nothing more comes of anybody.
#[tactic(auto, using(crate::proofs::LogLaws::endings))]
pub(crate) fn have_all_ended(ended: &[bool]) -> bool
    ensures all { IsTrue result → (q : ℕ) → q < length ended.now → has_ended ended.now q ≡ true }
    ensures some { ((q : ℕ) → q < length ended.now → has_ended ended.now q ≡ true) → IsTrue result }
{
    for q in 0..ended.len() {
        if !ended[q] {
            return false;
        }
    }
    true
}
