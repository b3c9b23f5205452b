//! The functions that a graph may name, each by the operations whose meaning it has.

use lasp_fns::{LiftOp, MapOp};

/// A condition of a predicate, its text still to be copied.
#[derive(Clone, Copy)]
pub enum Condition {
    /// A number that two divides.
    Even,
    /// A number greater than this one.
    Above(i64),
    /// A number less than this one.
    Below(i64),
    /// A text.
    IsText,
    /// A text that begins with this one.
    StartsWith(&'static str),
    /// A pair whose first part is itself a pair that begins with the second part.
    KeyMatch,
    /// A pair of two equal values.
    Same,
}

/// Each map function with its name and steps, in the order of the library.
pub const MAPS: [(&str, &[MapOp]); 11] = [
    ("id", &[]),
    ("succ", &[MapOp::Add(1)]),
    ("double", &[MapOp::Times(2)]),
    ("neg", &[MapOp::Neg]),
    ("abs", &[MapOp::Abs]),
    ("first", &[MapOp::First]),
    ("second", &[MapOp::Second]),
    ("swap", &[MapOp::Swap]),
    ("length", &[MapOp::Length]),
    ("lower", &[MapOp::Lower]),
    ("key", &[MapOp::First, MapOp::First]),
];

/// Each predicate with its name and conditions, in the order of the library.
pub const PREDICATES: [(&str, &[Condition]); 9] = [
    ("all", &[]),
    ("even", &[Condition::Even]),
    ("positive", &[Condition::Above(0)]),
    ("negative", &[Condition::Below(0)]),
    ("small", &[Condition::Above(-1), Condition::Below(100)]),
    ("text", &[Condition::IsText]),
    ("key_match", &[Condition::KeyMatch]),
    ("same", &[Condition::Same]),
    ("tagged", &[Condition::IsText, Condition::StartsWith("#")]),
];

/// Each lift with its name, in the order of the library.
pub const LIFTS: [(&str, LiftOp); 4] = [
    ("one", LiftOp::One),
    ("itself", LiftOp::Itself),
    ("length", LiftOp::Length),
    ("first", LiftOp::First),
];
