//! What a command declares, read as a graph's declarations are, against the graph so far.

ghost use Rattle.std.specs.Prelude.{◌≡◌};
ghost use Rattle.serde_json.specs.View.{view};
ghost use Rattle.model_scripts.specs.Script.{why_declared};
ghost use Rattle.lasp_graph.specs.Decl.{decl_of};
ghost use Rattle.lasp_graph.specs.Library.{library_of};
ghost use Rattle.lasp_script.specs.Made.{declared_read};
ghost use Rattle.lasp_script.specs.Answers.{Answers};

use super::refused::CommandRefused;
use lasp_fns::Library;
use lasp_graph::{Decl, Graph, GraphWhy, read_decl};
use model_scripts::ScriptWhy;
use serde_json::Value as Json;
use std::alloc::Global;

/// The declaration that a tree is against the graph so far.
#[tactic(auto, unfolding(crate::specs::Made::declared_read))]
pub(crate) fn read_declared(
    alloc: Global,
    tree: &Json,
    g: &Graph,
    lib: &Library,
) -> Result<Decl, CommandRefused>
    ensures { Answers decl_of result (declared_read (library_of lib.now) g.now (view tree.now)) }
{
    match read_decl(alloc, tree, g, lib) {
        Ok(decl) => Ok(decl),
        Err(refused) => match refused.why() {
            Some(why) => Err(CommandRefused::Because(why_declared(why))),
            None => Err(CommandRefused::Memory),
        },
    }
}

/// Why a declaration is refused, as a script says it.
fn why_declared(why: GraphWhy) -> ScriptWhy
    ensures { result ≡ why_declared why }
{
    match why {
        GraphWhy::NotJson => ScriptWhy::NotJson,
        GraphWhy::Shape => ScriptWhy::Shape,
        GraphWhy::NameShape => ScriptWhy::NameShape,
        GraphWhy::NameTaken => ScriptWhy::NameTaken,
        GraphWhy::UnknownInput => ScriptWhy::UnknownInput,
        GraphWhy::WrongKind => ScriptWhy::WrongKind,
        GraphWhy::UnknownFunction => ScriptWhy::UnknownFunction,
        GraphWhy::TooWide => ScriptWhy::TooWide,
        GraphWhy::TooMany => ScriptWhy::TooMany,
    }
}
