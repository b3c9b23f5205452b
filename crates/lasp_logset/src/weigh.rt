//! What rows weigh: how many bytes they take where each stands with its value, as messages have them.

ghost use Rattle.lasp_value.specs.Value.{val_of};
ghost use Rattle.lasp_value.specs.Token.{tok_of};
ghost use Rattle.lasp_logset.specs.Weights.{IsBounded, val_weight, tok_weight, row_weight, rows_weight};

use super::entry::Entry;
use super::orset::{Kept, OrSet};
use lasp_value::{Token, Value};

impl OrSet {
    /// A number that is at least what the rows weigh, in constant time. It is above that by what rows weigh that died after they had come.
    #[tactic(auto, using(crate::proofs::WeightLaws::set_bounded))]
    pub fn weight(&self) -> u64
        ensures { IsBounded (rows_weight self.now) result }
    {
        match &self.kept {
            Kept::Whole(set) => set.weight(),
            Kept::Past(grown) => grown.past().weight(),
        }
    }
}

/// A number that is at least what a row weighs.
pub(crate) fn entry_weight(entry: &Entry) -> u64
    ensures { IsBounded (row_weight entry.now) result }
{
    value_weight(entry.value())
        .saturating_add(token_weight(entry.token()))
        .saturating_add(5)
}

fn value_weight(value: &Value) -> u64
    ensures { IsBounded (val_weight (val_of value.now)) result }
{
    match value {
        Value::Int(_) => 9,
        Value::Text(text) => text.len().saturating_add(3),
        Value::Pair(a, b) => value_weight(a)
            .saturating_add(value_weight(b))
            .saturating_add(1),
    }
}

fn token_weight(token: &Token) -> u64
    ensures { IsBounded (tok_weight (tok_of token.now)) result }
{
    match token {
        Token::Base(_, _) => 9,
        Token::Both(a, b) => token_weight(a).saturating_add(token_weight(b)),
    }
}
