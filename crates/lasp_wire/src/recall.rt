//! What values are by their types alone.

ghost use Rattle.std.specs.Prelude.{◌≡◌, true, FitsSigned};
ghost use Rattle.lasp_wire.specs.Prelude.{is_utf8, IsSpellable, val_of};
ghost use mir.Syntax.{w64};

use lasp_value::Value;

/// Recalls that each number in a value has 64 bits and each text is UTF-8, so that a value of a source's width may stand in a message. It walks through the value and takes no memory.
pub fn recall_value(value: &Value)
    ensures { IsSpellable (val_of value.now) }
{
    match value {
        Value::Int(n) => recall_number(*n),
        Value::Text(text) => recall_text(text.as_str()),
        Value::Pair(a, b) => {
            recall_value(a);
            recall_value(b);
        }
    }
}

fn recall_number(n: i64)
    ensures { FitsSigned w64 n }
{}

fn recall_text(text: &str)
    ensures { is_utf8 text.now ≡ true }
{}
