//! What values, tokens and rows are: the definitions that every crate above speaks of, their orders and their codes. There is nothing to run here: a function's contract is a group of laws.
#![tactic(auto)]

mod json;
mod value_why;

ghost use Rattle.std.specs.Prelude.{◌≡◌};
ghost use Rattle.std.specs.Cmp.{IsTotalOrder};
ghost use Rattle.std.specs.declared.cmp.Ordering.TheVariants.{Equal};
ghost use Rattle.model_values.specs.Value.{Val, val_cmp};
ghost use Rattle.model_values.specs.Token.{Tok, tok_cmp};
ghost use Rattle.model_values.specs.Row.{Key, key_cmp};

pub use json::values_are_refused_at_their_first_offence;
pub use value_why::ValueWhy;

/// Values, tokens and keys are in total orders that tell any two of them apart.
#[tactic(auto, using(crate::specs::Row::orders))]
pub fn orders_are_total()
    ensures values { IsTotalOrder val_cmp }
    ensures tokens { IsTotalOrder tok_cmp }
    ensures keys { IsTotalOrder key_cmp }
    ensures same_value { (v w : Val) → val_cmp v w ≡ Equal → v ≡ w }
    ensures same_token { (t s : Tok) → tok_cmp t s ≡ Equal → t ≡ s }
    ensures same_key { (k l : Key) → key_cmp k l ≡ Equal → k ≡ l }
{}
