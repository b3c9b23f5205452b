//! The values that maps make.

ghost use Rattle.std.specs.Prelude.{ℕ, ◌≤◌, ◌<◌, ◌^◌, List};
ghost use Rattle.model_values.specs.Value.{Val};
ghost use Rattle.model_values.specs.Size.{leaves, text_bytes, HasSmallInts, IsOfWidth, IsSized};
ghost use Rattle.model_functions.specs.Map.{MapOp, mapped};

/// A map adds no leaf and no byte of text to a value, and so makes none wider. Its numbers stay numbers of 64 bits; of a text this asks that its length is one.
#[tactic(auto, using(crate::proofs::MapLaws::maps))]
pub fn maps_make_no_value_larger()
    ensures leaves { (ops : List MapOp) (v : Val) → leaves (mapped ops v) ≤ leaves v }
    ensures bytes { (ops : List MapOp) (v : Val) → text_bytes (mapped ops v) ≤ text_bytes v }
    ensures width { (w : ℕ) (ops : List MapOp) (v : Val) → IsOfWidth w v → IsOfWidth w (mapped ops v) }
    ensures ints { (ops : List MapOp) (v : Val) → HasSmallInts v → text_bytes v < 2 ^ 63 → HasSmallInts (mapped ops v) }
    ensures sized { (ops : List MapOp) (v : Val) → IsSized v → IsSized (mapped ops v) }
{}
