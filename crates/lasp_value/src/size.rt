//! How large the value of a tree is, told before any memory is taken for it.

ghost use Rattle.std.specs.Prelude.{◌≡◌, ◌+◌};
ghost use Rattle.serde_json.specs.View.{view};
ghost use Rattle.model_values.specs.Json.{written_value};
ghost use Rattle.lasp_value.specs.Size.{counted, is_small, measured};

use model_values::ValueWhy;
use serde_json::Value as Json;

/// The most numbers and texts that a value handed in may have.
const MOST_LEAVES: u64 = 8;

/// The most bytes of text that a value handed in may have.
const MOST_TEXT_BYTES: u64 = 256;

/// The numbers and texts of a value, and the bytes of its texts. Each count stops at the largest u64.
#[derive(Clone, Copy, Drop)]
pub(crate) struct Size {
    leaves: u64,
    text_bytes: u64,
}

impl Size {
    /// Whether a value of this size may be handed in.
    pub(crate) fn is_small(&self) -> bool
        ensures { result ≡ is_small self.now }
    {
        self.leaves <= MOST_LEAVES && self.text_bytes <= MOST_TEXT_BYTES
    }

    fn plus(&self, other: Size) -> Size
        ensures leaves { result.leaves ≡ counted (self.now.leaves + other.leaves) }
        ensures text_bytes { result.text_bytes ≡ counted (self.now.text_bytes + other.text_bytes) }
    {
        Size {
            leaves: self.leaves.saturating_add(other.leaves),
            text_bytes: self.text_bytes.saturating_add(other.text_bytes),
        }
    }
}

/// The size of the value that a tree stands for, however large, or why it stands for none. It takes no memory.
pub(crate) fn measure(j: &Json) -> Result<Size, ValueWhy>
    ensures { result ≡ measured (written_value (view j.now)) }
{
    match j {
        Json::Number(n) => match n.as_i64() {
            Some(_) => Ok(Size {
                leaves: 1,
                text_bytes: 0,
            }),
            None => Err(ValueWhy::NumberRefused),
        },
        Json::String(text) => Ok(Size {
            leaves: 1,
            text_bytes: text.len() as u64,
        }),
        Json::Array(items) => match items.as_slice() {
            [] => Err(ValueWhy::NotAValue),
            [_] => Err(ValueWhy::NotAValue),
            [_, _, _, ..] => Err(ValueWhy::NotAValue),
            [first, second] => {
                let size = measure(first)?;
                Ok(size.plus(measure(second)?))
            }
        },
        Json::Null => Err(ValueWhy::NotAValue),
        Json::Bool(_) => Err(ValueWhy::NotAValue),
        Json::Object(_) => Err(ValueWhy::NotAValue),
    }
}
