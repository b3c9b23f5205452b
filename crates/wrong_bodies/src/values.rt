//! Values, their texts and names.

ghost use Rattle.std.specs.Prelude.{◌≡◌, ◌↔◌, IfOk, IfSome, IsNone, false};
ghost use Rattle.serde_json.specs.View.{view};
ghost use Rattle.model_values.specs.Text.{shown};
ghost use Rattle.lasp_value.specs.Json.{Gives};
ghost use Rattle.model_values.specs.Json.{read_value};
ghost use Rattle.model_values.specs.Name.{is_name};
ghost use Rattle.lasp_value.specs.Value.{val_of};

use lasp_value::{Name, Text, Value, ValueRefused, print_value, value_of_json};
use serde_json::Value as Json;
use std::alloc::{AllocError, Global};

/// `lasp_value::value_of_json`.
pub fn value_of(alloc: Global, j: &Json) -> Result<Value, ValueRefused>
    ensures { Gives result (read_value (view j.now)) }
{
    value_of_json(alloc, j)
}

/// `lasp_value::print_value`.
pub fn text_of(alloc: Global, v: &Value) -> Result<Text, AllocError>
    ensures { IfOk result (λ t. t ≡ shown (val_of v.now)) }
{
    print_value(alloc, v)
}

/// `lasp_value::Name::of`.
pub fn name_of(alloc: Global, s: &str) -> Result<Option<Name>, AllocError>
    ensures some { IfOk result (λ name. IfSome name (λ n. n ≡ s.now)) }
    ensures none { IfOk result (λ name. IsNone name ↔ is_name s.now ≡ false) }
{
    Name::of(alloc, s)
}
