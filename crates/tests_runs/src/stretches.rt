//! Runs of a node that comes in from outside and goes out again, also where the run stops, and stretches.

ghost use Rattle.std.specs.Prelude.{◌≡◌, IfOk, map};
ghost use Rattle.std.specs.Arc.{arc_value};
ghost use Rattle.model_readings.specs.Lawful.{FitsAll};
ghost use Rattle.lasp_graph.specs.Library.{library_of};
ghost use Rattle.lasp_drive.specs.Node.{AreFresh};
ghost use Rattle.lasp_drive.specs.Run.{IsRunnable};

use crate::nodes::graph_of;
use lasp_drive::{Alone, Driver, FreshNode, Node, advance, run_through};
use lasp_fns::Library;
use lasp_graph::Graph;
use lasp_node::CoreNode;
use lasp_script::{Script, read_script};
use std::alloc::{AllocError, Global};
use std::sync::Arc;
use std::test::Fail;

/// A node to which nothing has happened, alone.
fn alone<N: FreshNode>(alloc: Global, graph: &Arc<Graph>) -> Result<Vec<N>, AllocError>
    ensures { IfOk result (λ nodes. AreFresh (arc_value graph.now) 1 1 (map N.view nodes.items)) }
{
    let mut nodes = Vec::new(alloc);
    nodes.push(N::new(alloc, graph, 0, 1)?)?;
    Ok(nodes)
}

/// Appends how many updates each node of a run knows, once it has given them back.
fn tell_counts<N: Node>(
    told: &mut String,
    alloc: Global,
    driver: Driver<N>,
) -> Result<(), AllocError> {
    let mut nodes = driver.into_nodes();
    for p in 0..nodes.len() {
        let counts = nodes[p].counts(alloc)?;
        write!(told, " {:?}", counts.as_slice())?;
    }
    told.push('\n')
}

/// Appends how a run of one node ends, and how many updates the node knows.
fn tell_run<N: FreshNode>(
    told: &mut String,
    alloc: Global,
    lib: &Library,
    graph: &Arc<Graph>,
    script: &Script,
) -> Result<(), AllocError>
    requires runnable { IsRunnable (library_of lib.now) (arc_value graph.now) script.now }
    requires one { script.now.nodes ≡ 1 }
{
    let share = Arc::try_clone(graph)?;
    let nodes = alone::<N>(alloc, graph)?;
    let fresh = Driver::of(alloc, share, nodes);
    let (driver, end) = run_through(fresh, alloc, lib, script, &mut Alone);
    write!(told, "run: {end:?}, knows")?;
    tell_counts(told, alloc, driver)
}

/// Appends how far the first stretch of a script comes, and how many updates each node knows then.
fn tell_stretch(
    told: &mut String,
    alloc: Global,
    lib: &Library,
    graph: &Arc<Graph>,
    script: &Script,
) -> Result<(), AllocError>
    requires { IsRunnable (library_of lib.now) (arc_value graph.now) script.now }
{
    let driver: Driver<CoreNode> = Driver::new(alloc, graph, script.nodes())?;
    let (driver, reached) = advance(driver, alloc, lib, script, 0);
    write!(told, "stretch: {reached:?}, knows")?;
    tell_counts(told, alloc, driver)
}

/// Appends both of a script of one node.
fn tell(
    told: &mut String,
    alloc: Global,
    lib: &Library,
    graph: &Arc<Graph>,
    script: &str,
) -> Result<(), Fail>
    requires { FitsAll (library_of lib.now) (arc_value graph.now) }
{
    let script = read_script(alloc, script.as_bytes(), graph, lib)?;
    tell_stretch(told, alloc, lib, graph, &script)?;
    if script.nodes() == 1 {
        tell_run::<CoreNode>(told, alloc, lib, graph, &script)?;
    }
    Ok(())
}

/// The first comes to its end, and has a point within. The second stops, and the third has no point.
const SCRIPTS: [&str; 3] = [
    r#"[["nodes",1],["add",0,"a",7],["add",0,"a",8],["settle"],["remove",0,"a",7]]"#,
    r#"[["nodes",1],["add",0,"a",7],["await",0,"a",["added",[8]]],["add",0,"a",8]]"#,
    r#"[["nodes",2],["add",0,"a",7],["sync"],["add",1,"a",8]]"#,
];

const TOLD: &str = "stretch: Ok(2), knows [2]
run: Ok(()), knows [3]
stretch: Ok(1), knows [1]
run: Err(NotReached(2)), knows [1]
stretch: Ok(3), knows [1, 0] [1, 1]
";

#[test]
fn a_run_gives_its_nodes_back_also_where_it_stops(rt: HostRuntime) -> Result<(), Fail> {
    let alloc = rt.alloc();
    let lib = Library::new(alloc);
    let graph = graph_of(alloc, &lib, r#"[["a","orset"]]"#)?;
    let mut told = String::new(alloc);
    for script in SCRIPTS {
        tell(&mut told, alloc, &lib, &graph, script)?;
    }
    assert_eq!(rt; told.as_str(), TOLD);
    Ok(())
}
