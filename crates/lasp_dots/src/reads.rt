//! What a set shows, and its pairs and counts.

ghost use Rattle.std.specs.Prelude.{◌≡◌, ◌<◌, ◌↔◌, IfOk, IsTrue, Some, false, length, slice_get};
ghost use Rattle.lasp_dots.specs.Prelude.{option_map, IsHeld, visible, is_last, count_at, val_of, tok_of};

use super::search::has_value;
use super::set::DotSet;
use lasp_value::{Token, Value, Values};
use std::alloc::AllocError;

impl DotSet {
    /// The number of pairs.
    pub fn dots(&self) -> u64
        ensures { result ≡ length self.now.rows }
    {
        self.live.len() as u64
    }

    /// The pair at a place, counted from 0. It costs a step for each piece before it.
    pub fn dot_at(&self, i: u64) -> (&Value, &Token)
        requires { i < length self.now.rows }
        ensures { slice_get self.now.rows i ≡ Some ((val_of result.0.now, tok_of result.1.now), false) }
    {
        let dot = self.live.at(i as usize);
        dot.is_live();
        (dot.value(), dot.token())
    }

    /// The number of nodes.
    pub fn nodes(&self) -> u8
        ensures { result ≡ length self.now.counts }
    {
        self.holds();
        self.known.len() as u8
    }

    /// How many updates of a replica are counted.
    pub fn count_of(&self, replica: u8) -> u64
        requires { replica < length self.now.counts }
        ensures { result ≡ count_at self.now.counts replica }
    {
        self.known[usize::from(replica)]
    }

    /// Whether the value has a pair. It costs a search.
    pub fn has(&self, value: &Value) -> bool
        ensures { IsTrue result ↔ IsHeld (visible self.now.rows) (val_of value.now) }
    {
        self.holds();
        has_value(&self.live, value)
    }

    /// The values with a pair, ascending, each once.
    pub fn visible(&self) -> Result<Values, AllocError>
        ensures { IfOk result (λ values. values ≡ visible self.now.rows) }
    {
        self.holds();
        let alloc = *self.known.allocator();
        let mut values = Values::new(alloc);
        let mut last: Option<&Value> = None;
        let mut left = self.live.iter();
        while let Some(dot) = left.next() {
            dot.is_live();
            if is_shown(last, dot.value()) {
                continue;
            }
            values.push(dot.value().try_clone(alloc)?)?;
            last = Some(dot.value());
        }
        Ok(values)
    }
}

/// Whether the value is the last one that was shown.
fn is_shown(last: Option<&Value>, value: &Value) -> bool
    ensures { result ≡ is_last (option_map (λ v. val_of v.now) last.entry) (val_of value.now) }
{
    match last {
        Some(shown) => *shown == *value,
        None => false,
    }
}
