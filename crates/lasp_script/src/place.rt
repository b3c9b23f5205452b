//! The node, the variable and the message of a command, looked up among those that there are.

ghost use Rattle.std.specs.Prelude.{◌≡◌, ◌<◌, length, IfOk, IfSome};
ghost use Rattle.serde_json.specs.View.{number_view};
ghost use Rattle.model_scripts.specs.Parts.{number_below};
ghost use Rattle.lasp_script.specs.Made.{node_read, message_read, place_read, kind_checked};
ghost use Rattle.lasp_script.specs.Kinds.{is_among};
ghost use Rattle.lasp_script.specs.Word.{target_view};

use super::kinds::Kinds;
use super::word::Target;
use lasp_graph::Graph;
use model_scripts::ScriptWhy;
use serde_json::Number;

/// The node, which must be one of so many, and then the variable.
#[tactic(auto, unfolding(crate::specs::Made::place_read))]
pub(crate) fn read_place(target: &Target, g: &Graph, nodes: u8) -> Result<(u8, u8), ScriptWhy>
    ensures exact { result ≡ place_read g.now nodes (target_view target.now) }
    ensures within { IfOk result (λ place. place.1 < length g.now) }
{
    let node = read_node(target.node, nodes)?;
    match g.find(target.var) {
        Some(var) => Ok((node, var)),
        None => Err(ScriptWhy::UnknownVar),
    }
}

/// The node, which must be one of so many.
#[tactic(auto, unfolding(crate::specs::Made::node_read))]
pub(crate) fn read_node(n: &Number, nodes: u8) -> Result<u8, ScriptWhy>
    ensures { result ≡ node_read nodes (number_view n.now) }
{
    match number_below(n, u32::from(nodes)) {
        Some(node) => Ok(node as u8),
        None => Err(ScriptWhy::NoSuchNode),
    }
}

/// The message, which must be one of so many.
#[tactic(auto, unfolding(crate::specs::Made::message_read))]
pub(crate) fn read_message(n: &Number, sent: u32) -> Result<u32, ScriptWhy>
    ensures { result ≡ message_read sent (number_view n.now) }
{
    match number_below(n, sent) {
        Some(message) => Ok(message),
        None => Err(ScriptWhy::NotSent),
    }
}

/// Passes where the variable is of a kind that a word or a threshold works on.
pub(crate) fn check_kind(kinds: Kinds, g: &Graph, var: u8) -> Result<(), ScriptWhy>
    requires { var < length g.now }
    ensures { result ≡ kind_checked (is_among kinds) g.now var }
{
    if kinds.have(&g.at(u64::from(var)).kind) {
        Ok(())
    } else {
        Err(ScriptWhy::WrongOp)
    }
}

#[tactic(auto, unfolding(model_scripts::specs::Parts::number_below))]
fn number_below(n: &Number, limit: u32) -> Option<u32>
    ensures exact { result ≡ number_below limit (number_view n.now) }
    ensures within { IfSome result (λ i. i < limit) }
{
    let number = n.as_u64()?;
    if number < u64::from(limit) {
        Some(number as u32)
    } else {
        None
    }
}
