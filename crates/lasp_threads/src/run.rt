//! A whole run over stores.

ghost use Rattle.std.specs.Prelude.{◌≡◌, ◌≤◌, [], IfOk, OnOk, OnErr, length, map, vec_len, vec_capacity};
ghost use Rattle.std.specs.Arc.{arc_value};
ghost use Rattle.model_world.specs.World.{ended};
ghost use Rattle.model_world.specs.Report.{report_of};
ghost use Rattle.lasp_graph.specs.Library.{library_of};
ghost use Rattle.lasp_drive.specs.Run.{IsRunnable, Reports};
ghost use Rattle.lasp_drive.specs.Node.{AreFresh};
ghost use Rattle.lasp_store_node.specs.View.{place_of};
ghost use Rattle.lasp_threads.specs.Ran.{HaveEnded, HaveBegun};
ghost use Rattle.lasp_threads.specs.Spots.{AreFeeds, nodes_seen, unsent};
ghost use Rattle.lasp_threads.specs.Stores.{AreFirst, AreBack, HaveRun, HaveStopped};

use crate::hands::{rejoin_all, seat_all};
use crate::nodes::{give_feeds, nodes_of};
use crate::report::report_on;
use crate::worker::Works;
use lasp_drive::Halt;
use lasp_fns::Library;
use lasp_graph::Graph;
use lasp_script::Script;
use lasp_store::{Feed, Store};
use lasp_store_node::StoreNode;
use lasp_workers::Gate;
use std::alloc::{AllocError, AllocGlobal, Global};
use std::random::RandomSource;
use std::sync::{Arc, Wait};
use std::thread::Threads;

/// The graph once more, and the nodes of the stores. Where there is no memory for them, the feeds stay.
fn graph_and_nodes<'a, R: Wait>(
    rt: &'a R,
    alloc: Global,
    graph: &Arc<Graph>,
    stores: &'a [Store],
    feeds: &mut Vec<Feed>,
) -> Result<(Arc<Graph>, Vec<StoreNode<'a, R>>), AllocError>
    requires { AreFeeds stores.now feeds.old.items }
    ensures graph { IfOk result (λ made. arc_value made.0 ≡ arc_value graph.now) }
    ensures nodes { IfOk result (λ made. made.1.items ≡ unsent feeds.old.items) }
    ensures taken { OnOk result (feeds.new.items ≡ []) }
    ensures room { OnOk result (vec_len feeds.old ≤ vec_capacity feeds.new) }
    ensures err { OnErr result (feeds.new ≡ feeds.old) }
{
    let share = Arc::try_clone(graph)?;
    Ok((share, nodes_of(rt, alloc, stores, feeds)?))
}

/// Runs a script on the feeds of stores while the workers work in its stretches, and gives its report. Feeds and workers come back also where the run stops.
fn report_beside<R: Threads + Wait + RandomSource + AllocGlobal, T: Sync, W: Works<T> + Send>(
    rt: &R,
    workers: Vec<W>,
    tools: &T,
    alloc: Global,
    graph: &Arc<Graph>,
    stores: &[Store],
    feeds: &mut Vec<Feed>,
    script: &Script,
    lib: &Library,
) -> (Vec<W>, Result<Vec<u8>, Halt>)
    requires runnable { IsRunnable (library_of lib.now) (arc_value graph.now) script.now }
    requires feeds { AreFeeds stores.now feeds.old.items }
    requires fresh { AreFresh (arc_value graph.now) script.now.nodes script.now.nodes (nodes_seen feeds.old.items) }
    ensures reports { Reports (ended (arc_value graph.now) script.now) report_of result.1 }
    ensures ran { OnOk result.1 (HaveEnded (arc_value graph.now) script.now (nodes_seen feeds.new.items)) }
    ensures stopped { OnErr result.1 (HaveBegun (arc_value graph.now) script.now (nodes_seen feeds.new.items)) }
    ensures feeds { AreFeeds stores.now feeds.new.items }
    ensures in_place { map place_of feeds.new.items ≡ map place_of feeds.old.items }
    ensures workers { map W.place result.0.items ≡ map W.place workers.items }
{
    match graph_and_nodes(rt, alloc, graph, stores, feeds) {
        Ok((share, nodes)) => {
            let (workers, nodes, report) = report_on(
                rt, workers, tools, alloc, share, nodes, lib, script,
            );
            give_feeds(feeds, nodes);
            (workers, report)
        }
        Err(_) => (workers, Err(Halt::Memory)),
    }
}

/// Runs a script on these stores with so many workers and gives its report. There are a store and its feed for each node of the script, to which nothing has happened.
///
/// Between two points the calling thread feeds the stores. The workers, each for the whole run on a thread of its own where one can be had, evaluate beside a stretch of 4,096 changes and more, and behind a shorter one, unless no two of them were in jobs at once behind the last ones; a stretch in which no command changes a node calls none. Where memory is short, there are fewer workers, or they have hands at fewer stores. The feeds are given back on every return, in no turn and with all hands of the workers, so that each store can be closed.
pub fn drive<R: Threads + Wait + RandomSource + AllocGlobal + Sync, G: Gate + Sync>(
    rt: &R,
    alloc: Global,
    graph: &Arc<Graph>,
    stores: &[Store],
    feeds: &mut Vec<Feed>,
    script: &Script,
    workers: u8,
    lib: &Library,
    gate: &G,
) -> Result<Vec<u8>, Halt>
    requires runnable { IsRunnable (library_of lib.now) (arc_value graph.now) script.now }
    requires stores { length stores.now ≡ script.now.nodes }
    requires feeds { AreFirst (arc_value graph.now) stores.now feeds.old.items }
    // the report of the run, or the run stopped where the world stops, or memory was wanting
    ensures reports { Reports (ended (arc_value graph.now) script.now) report_of result }
    // on every return each feed is that of its store and node, in no turn, with a legal journal, and every hand came back
    ensures back { AreBack (arc_value graph.now) stores.now feeds.new.items }
    // the journals have what the script makes at their nodes, once and in order, and every variable is as its graph gives it; where the run stopped, the first of that
    ensures ran { OnOk result (HaveRun (arc_value graph.now) script.now feeds.new.items) }
    ensures stopped { OnErr result (HaveStopped (arc_value graph.now) script.now feeds.new.items) }
{
    let crew = seat_all(rt, alloc, gate, stores, feeds.as_mut_slice(), workers);
    let (crew, report) = report_beside(rt, crew, lib, alloc, graph, stores, feeds, script, lib);
    rejoin_all(stores, feeds.as_mut_slice(), crew);
    report
}
