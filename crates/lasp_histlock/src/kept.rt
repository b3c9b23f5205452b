//! What a value behind the lock stands for.
ghost use Rattle.std.specs.Prelude.{◌≡◌, ℕ, ◌<◌, ◌^◌, List, length};

/// A value that stands for a list of entries, to which each turn adds some, and that has a frame, plain data that no turn changes.
/// Each entry names the number of the caller that made it.
pub trait Kept {
    type Item;

    type Frame;

    ghost list: { Self → List Self.Item };

    ghost frame: { Self → Self.Frame };

    // the number that the entry names
    ghost names: { Self.Item → ℕ };

    // the caller with this number may make the entry
    ghost may: { ℕ → Self.Item → Type 0 };

    /// The number of entries, which is less than 2^63.
    fn entries(&self) -> u64
        ensures count { result ≡ length (list self.now) }
        ensures small { result < 2 ^ 63 };

    // each entry that n may make names n
    ghost named: { (n : ℕ) (e : Self.Item) → may n e → names e ≡ n };
}
