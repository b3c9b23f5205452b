//! The kinds of variables that words and thresholds work on.

ghost use Rattle.std.specs.Prelude.{◌≡◌};
ghost use Rattle.lasp_graph.specs.Kind.{kind_of};
ghost use Rattle.lasp_script.specs.Kinds.{is_among};

use lasp_graph::Kind;

/// The kinds that a word or a threshold works on.
#[derive(Clone, Copy)]
pub(crate) enum Kinds {
    /// Sources, for `mark` and `bind`.
    Source,
    /// An observed-remove set, for `add` and `remove`.
    OrSet,
    /// A grow-only set, for `insert`.
    GSet,
    /// A counter, for `inc`.
    Counter,
    /// A register, for `max`.
    MaxReg,
    /// What has a number of elements or a total, for `count`.
    Counted,
    /// What has values, for `added`.
    Valued,
    /// What has rows, or covers a set that has, for `removed`.
    Rowed,
}

impl Kinds {
    /// Whether a variable is of one of these kinds.
    pub fn have(self, kind: &Kind) -> bool
        ensures { result ≡ is_among self (kind_of kind.now) }
    {
        match (self, kind) {
            (Kinds::Source, _) => kind.is_source(),
            (Kinds::OrSet, Kind::OrSet) => true,
            (Kinds::GSet, Kind::GSet) => true,
            (Kinds::Counter, Kind::Counter) => true,
            (Kinds::MaxReg, Kind::MaxReg) => true,
            (Kinds::Counted, Kind::GSet | Kind::Counter) => true,
            (Kinds::Valued, Kind::Counter | Kind::MaxReg) => false,
            (Kinds::Valued, _) => true,
            (Kinds::Rowed, Kind::GSet | Kind::Counter | Kind::MaxReg) => false,
            (Kinds::Rowed, _) => true,
            _ => false,
        }
    }
}
