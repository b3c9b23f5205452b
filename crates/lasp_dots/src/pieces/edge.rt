//! The tests by which a sorted list is searched.

ghost use Rattle.std.specs.Prelude.{◌≡◌, Bool};

/// A test that the items of a sorted list pass up to a place, the edge, and none behind it.
pub trait Edge<T> {
    ghost in_front: { Self → T → Bool };

    /// Whether an item stands before the edge.
    fn passes(&self, item: &T) -> bool
        ensures { result ≡ in_front self.now item.now };
}
