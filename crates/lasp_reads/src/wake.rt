//! Waking the reads that came to be met.

ghost use Rattle.std.specs.Prelude.{◌≡◌, ◌+◌, ◌<◌, ◌≤◌, ◌++◌, ◌∷◌, [], ℕ, List, Option, IfSome, length, map};
ghost use Rattle.std.specs.Option.{option_map};
ghost use Rattle.lasp_core.specs.Reads.{read_of};
ghost use Rattle.lasp_reads.specs.Wake.{numbers};

use lasp_core::{ReadNo, Released};

/// Whoever wakes the futures of reads. It may tell which reads it woke, as the list of their numbers, for which it then has room.
pub trait Wake {
    // the numbers of the reads that were woken, in order, where it tells them
    ghost woken: { Self → Option (List ℕ) };

    // how many numbers it has room for
    ghost room: { Self → ℕ };

    /// Wakes a read. It takes no memory.
    fn wake(&mut self, r: &ReadNo)
        requires room { IfSome (woken self.old) (λ list. length list < room self.old) }
        ensures room { room self.new ≡ room self.old }
        ensures woken { woken self.new ≡ option_map (λ list. list ++ (read_of r.now).number ∷ []) (woken self.old) };
}

/// Wakes exactly the reads that a call released, in their order. It takes no memory.
pub fn wake_released<W: Wake>(w: &mut W, released: &Released)
    requires room { IfSome (W.woken w.old) (λ list. length list + length released.now ≤ W.room w.old) }
    ensures room { W.room w.new ≡ W.room w.old }
    ensures woken { W.woken w.new ≡ option_map (λ list. list ++ numbers released.now) (W.woken w.old) }
{
    for i in 0..released.len() {
        w.wake(released.at(i));
    }
}
