//! Reading scripts.

ghost use Rattle.std.specs.Prelude.{◌≡◌};
ghost use Rattle.model_scripts.specs.Script.{script_of};
ghost use Rattle.lasp_graph.specs.Library.{library_of};
ghost use Rattle.lasp_script.specs.Answers.{Gives};

use lasp_fns::Library;
use lasp_graph::Graph;
use lasp_script::{Script, ScriptRefused, read_script};
use std::alloc::Global;

/// `lasp_script::read_script`.
pub fn script_of(
    alloc: Global,
    bytes: &[u8],
    g: &Graph,
    lib: &Library,
) -> Result<Script, ScriptRefused>
    ensures exact { Gives (λ s. s) result (script_of (library_of lib.now) g.now bytes.now) }
{
    read_script(alloc, bytes, g, lib)
}
