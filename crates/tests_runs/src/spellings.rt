//! Which scripts are read straight from their bytes, without a tree of the whole.

use crate::nodes::graph_of;
use lasp_fns::Library;
use lasp_graph::Graph;
use lasp_script::usual_script;
use std::alloc::Global;
use std::test::Fail;

const GRAPH: &str = r#"[["a","orset"],["g","gset"],["c","counter"],["m","maxreg"]]"#;

/// Every word, as programs write scripts and as people do.
const USUAL: [&str; 5] = [
    r#"[["nodes",2],["add",0,"a",7],["add",1,"a",["x",[-1,"é"]]],["remove",0,"a",7],["insert",1,"g","v"],["inc",0,"c",3],["max",1,"m",-5]]"#,
    r#"[["nodes",2],["mark",0,"a","m0"],["bind",1,"a","m0"],["send",0],["deliver",1,0],["sync"],["settle"],["print",0,"a"]]"#,
    r#"[["nodes",2],["mark",0,"a","m0"],["read",1,"a",["at_least","m0"]],["await",1,"c",["count",0]],["await",0,"a",["added",[1]]]]"#,
    r#"[["nodes",1],["declare",["d","union","a","a"]],["print",0,"d"]]"#,
    "\t[ [ \"nodes\" , 1 ] ,\r\n [ \"settle\" ] ] \n",
];

/// Unusual spellings of scripts, scripts that are refused, and texts that are none.
const OTHERS: [&str; 8] = [
    r#"[["nodes",1],["\u0061dd",0,"a",7]]"#,
    r#"[["nodes",1e0],["settle"]]"#,
    r#"[["nodes",1],["add",0,"a",7.0]]"#,
    r#"[["nodes",1],["add",1,"a",7]]"#,
    r#"[["nodes",9]]"#,
    r#"[["nodes",1],["settle"]"#,
    r#"[["nodes",1]],"#,
    "",
];

/// Whether all of the texts are read so, or none where `taken` is false.
fn are_all(alloc: Global, texts: &[&str], taken: bool, g: &Graph, lib: &Library) -> bool {
    for text in texts {
        if usual_script(alloc, text.as_bytes(), g, lib).is_some() != taken {
            return false;
        }
    }
    true
}

#[test]
fn scripts_in_usual_spellings_are_read_straight(rt: HostRuntime) -> Result<(), Fail> {
    let alloc = rt.alloc();
    let lib = Library::new(alloc);
    let graph = graph_of(alloc, &lib, GRAPH)?;
    assert!(rt; are_all(alloc, &USUAL, true, &graph, &lib));
    assert!(rt; are_all(alloc, &OTHERS, false, &graph, &lib));
    Ok(())
}
