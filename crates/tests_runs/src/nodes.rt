//! The nodes that a run leaves, each of which keeps a core.

ghost use Rattle.std.specs.Prelude.{◌≡◌, ◌<◌, length, map, IfOk};
ghost use Rattle.std.specs.Arc.{arc_value};
ghost use Rattle.model_readings.specs.Lawful.{FitsAll};
ghost use Rattle.lasp_graph.specs.Library.{library_of};
ghost use Rattle.lasp_drive.specs.Node.{IsSettled, Learns, AreSettled, AreNodes};
ghost use Rattle.lasp_drive.specs.Run.{IsRunnable};

use lasp_drive::{Driver, Node, run_on};
use lasp_fns::Library;
use lasp_graph::{Graph, read_graph};
use lasp_node::CoreNode;
use lasp_script::{Script, read_script};
use lasp_state::print_state;
use model_readings::accepted_graphs_are_lawful;
use std::alloc::{AllocError, Global};
use std::sync::Arc;
use std::test::Fail;

/// Appends what a settled node shows of a variable.
fn tell_state<N: Node>(
    out: &mut String,
    alloc: Global,
    node: &mut N,
    x: u8,
) -> Result<(), AllocError>
    requires settled { IsSettled (N.view node.old) }
    requires var { x < length (N.view node.old).decls }
    ensures { Learns (N.view node.old) (N.view node.new) }
{
    let state = node.state(x)?;
    let text = print_state(alloc, &state)?;
    out.push(' ')?;
    out.push_str(text.as_str())
}

/// Appends how many updates a node knows of each replica, and what it shows.
fn tell_node<N: Node>(
    out: &mut String,
    alloc: Global,
    graph: &Graph,
    p: usize,
    node: &mut N,
) -> Result<(), AllocError>
    requires settled { IsSettled (N.view node.old) }
    requires graph { (N.view node.old).decls ≡ graph.now }
    ensures { Learns (N.view node.old) (N.view node.new) }
{
    let counts = node.counts(alloc)?;
    write!(out, "node {p} knows {:?} and shows", counts.as_slice())?;
    for x in 0..graph.len() {
        tell_state(out, alloc, node, x as u8)?;
    }
    out.push('\n')
}

/// Appends a line for each node of a run.
fn tell_nodes<N: Node>(
    out: &mut String,
    alloc: Global,
    graph: &Graph,
    nodes: &mut Vec<N>,
) -> Result<(), AllocError>
    requires settled { AreSettled (map N.view nodes.old.items) }
    requires graph { AreNodes graph.now (length nodes.old.items) (map N.view nodes.old.items) }
{
    for p in 0..nodes.len() {
        tell_node(out, alloc, graph, p, &mut nodes[p])?;
    }
    Ok(())
}

/// What a run leaves: the lines that it printed, how many messages were sent, and each node.
fn left<N: Node>(alloc: Global, mut driver: Driver<N>) -> Result<String, AllocError>
    requires settled { AreSettled (map N.view driver.nodes.items) }
    requires graph { AreNodes (arc_value driver.graph) (length driver.nodes.items) (map N.view driver.nodes.items) }
{
    let mut out = String::from_str(alloc, driver.text.as_str())?;
    writeln!(out, "{} messages", driver.network.len())?;
    tell_nodes(&mut out, alloc, &driver.graph, &mut driver.nodes)?;
    Ok(out)
}

/// What a run of a script leaves, or why it stopped.
fn end(
    alloc: Global,
    lib: &Library,
    graph: &Arc<Graph>,
    script: &Script,
) -> Result<String, AllocError>
    requires { IsRunnable (library_of lib.now) (arc_value graph.now) script.now }
{
    match run_on::<CoreNode>(alloc, graph, lib, script) {
        Ok(driver) => left(alloc, driver),
        Err(halt) => format!(in alloc; "stopped: {halt:?}"),
    }
}

/// The same of a script's text against a graph whose functions are the library's.
fn told(alloc: Global, lib: &Library, graph: &Arc<Graph>, script: &str) -> Result<String, Fail>
    requires { FitsAll (library_of lib.now) (arc_value graph.now) }
{
    let script = read_script(alloc, script.as_bytes(), graph, lib)?;
    Ok(end(alloc, lib, graph, &script)?)
}

/// The graph of a text, whose functions are the library's.
pub fn graph_of(alloc: Global, lib: &Library, text: &str) -> Result<Arc<Graph>, Fail>
    ensures { IfOk result (λ g. FitsAll (library_of lib.now) (arc_value g)) }
{
    accepted_graphs_are_lawful();
    let graph = read_graph(alloc, text.as_bytes(), lib)?;
    Ok(Arc::new(alloc, graph)?)
}

/// What scripts of one graph leave, one behind the other.
fn told_all(alloc: Global, graph: &str, scripts: &[&str]) -> Result<String, Fail> {
    let lib = Library::new(alloc);
    let graph = graph_of(alloc, &lib, graph)?;
    let mut all = String::new(alloc);
    for script in scripts {
        writeln!(all, "{}", told(alloc, &lib, &graph, script)?)?;
    }
    Ok(all)
}

const GRAPH: &str =
    r#"[["a","orset"],["b","orset"],["u","union","a","b"],["p","product","a","b"],["c","counter"]]"#;

/// Node 0 removes a value while node 1 adds it once more, and node 1 removes one behind the last sync. The second script stops.
const SCRIPTS: [&str; 2] = [
    r#"[["nodes",2],["add",0,"a",7],["add",1,"b",-7],["inc",1,"c",3],["sync"],["remove",0,"a",7],["add",1,"a",7],["print",0,"u"],["sync"],["print",1,"u"],["remove",1,"b",-7]]"#,
    r#"[["nodes",2],["add",0,"a",7],["await",1,"u",["added",[7]]],["sync"]]"#,
];

const TOLD: &str = "0 u [-7]
1 u [-7,7]
4 messages
node 0 knows [2, 3] and shows [7] [-7] [-7,7] [[7,-7]] 3
node 1 knows [2, 4] and shows [7] [] [7] [] 3

stopped: NotReached(2)
";

#[test]
fn a_run_hands_back_its_nodes_as_its_script_leaves_them(rt: HostRuntime) -> Result<(), Fail> {
    assert_eq!(rt; told_all(rt.alloc(), GRAPH, &SCRIPTS)?.as_str(), TOLD);
    Ok(())
}
