//! Reading graphs and evaluating them.

ghost use Rattle.std.specs.Prelude.{◌≡◌, ◌<◌, ◌≤◌, ◌+◌, IfOk, length};
ghost use Rattle.model_functions.specs.Map.{mapped};
ghost use Rattle.model_sets.specs.Equations.{map_set};
ghost use Rattle.model_graph.specs.Lawful.{sources_among};
ghost use Rattle.model_graph.specs.Evaluation.{eval};
ghost use Rattle.model_readings.specs.Graph.{graph_of};
ghost use Rattle.model_readings.specs.Lawful.{FitsAll};
ghost use Rattle.lasp_fns.specs.Library.{maps_of, map_ops_at};
ghost use Rattle.lasp_fns.specs.Steps as counted;
ghost use Rattle.lasp_setops.specs.Width.{IsSetOfWidth};
ghost use Rattle.lasp_graph.specs.Answers.{Gives};
ghost use Rattle.lasp_graph.specs.Evaluated.{Evaluates, seen, AreSets, AreNarrow};
ghost use Rattle.lasp_graph.specs.Library.{library_of};
ghost use Rattle.lasp_graph.specs.States.{contents_of};
ghost use Rattle.lasp_graph.specs.Sources.{by_variable};

use lasp_fns::{Library, StepLib};
use lasp_graph::{EvalAll, Graph, GraphRefused, States, eval_all, read_graph};
use lasp_logset::OrSet;
use std::alloc::{AllocError, Global};

/// `lasp_graph::read_graph`.
pub fn graph_of(alloc: Global, bytes: &[u8], lib: &Library) -> Result<Graph, GraphRefused>
    ensures exact { Gives (λ g. g) result (graph_of (library_of lib.now) bytes.now) }
{
    read_graph(alloc, bytes, lib)
}

/// `lasp_graph::eval_all`.
pub fn evaluate(
    alloc: Global,
    g: &Graph,
    lib: &Library,
    sources: &States,
) -> Result<States, EvalAll>
    requires all { length sources.now ≡ length (sources_among g.now) }
    requires fits { FitsAll (library_of lib.now) g.now }
    requires sets { AreSets g.now (by_variable g.now sources.now) }
    requires narrow { AreNarrow g.now (by_variable g.now sources.now) }
    ensures exact { Evaluates (seen contents_of result) (eval g.now (contents_of (by_variable g.now sources.now))) }
{
    eval_all(alloc, g, lib, sources)
}

/// `lasp_setops::map_counted`.
pub fn map_counted(alloc: Global, lib: &mut StepLib, f: u32, x: &OrSet) -> Result<OrSet, AllocError>
    requires place { f < length (maps_of (counted.library_of lib.old)) }
    requires width { IsSetOfWidth 16 x.now }
    ensures ok { IfOk result (λ s. s ≡ map_set (mapped (map_ops_at (counted.library_of lib.old) f)) x.now) }
    ensures ticks { counted.ticks_of lib.new ≤ counted.ticks_of lib.old + length x.now }
{
    lasp_setops::map_counted(alloc, lib, f, x)
}
