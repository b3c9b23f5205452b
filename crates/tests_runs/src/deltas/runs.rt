//! Runs whose messages travel as deltas, by the program's words: what they print, and how their messages travelled.

use lasp_edge::{MemFiles, MemSink};
use lasp_fns::Library;
use lasp_run::one_thread;
use std::alloc::{AllocError, Global};
use std::test::Fail;

/// One set.
const GRAPH: &str = r#"[["a","orset"]]"#;

/// The second of two messages comes first, then the first one late, and the second again.
const LATE: &str =
    r#"[["nodes",2],["add",0,"a",5],["send",0],["add",0,"a",6],["send",0],["deliver",1,1],["deliver",1,0],["deliver",1,1],["print",1,"a"]]"#;

/// The delta of the second message goes on from one update of node 0, and node 1 knows none when it comes first. Each delta has one row, and 69 bytes.
const LATE_PRINTED: &str = "1 a [5,6]\nknown 0 2 0\nknown 1 2 0\ndelta 3 1 138\n";

/// A node removes what another one adds once more, and both tell each other.
const CONCURRENT: &str =
    r#"[["nodes",2],["add",0,"a",1],["send",0],["deliver",1,0],["remove",1,"a",1],["add",0,"a",1],["sync"],["print",0,"a"],["print",1,"a"]]"#;

/// Each delta comes where what it goes on from is known. Each has one row: the first add, the second add alone, and the first one dead.
const CONCURRENT_PRINTED: &str = "0 a [1]\n1 a [1]\nknown 0 2 1\nknown 1 2 1\ndelta 3 0 207\n";

/// The status with which `delta` ends on a script over the set, and what it prints.
fn ended(alloc: Global, script: &str) -> Result<(u8, Vec<u8>), AllocError> {
    let mut files = MemFiles::new(alloc);
    files.put_file("graph", GRAPH.as_bytes())?;
    files.put_file("script", script.as_bytes())?;
    let mut words = Vec::new(alloc);
    for word in ["delta", "graph", "script"] {
        words.push(String::from_str(alloc, word)?)?;
    }
    let mut out = MemSink::new(alloc, 1_000)?;
    let mut err = MemSink::new(alloc, 1_000)?;
    let lib = Library::new(alloc);
    let status = one_thread(alloc, &words, &mut files, &mut out, &mut err, &lib);
    Ok((status, Vec::from_slice(alloc, out.bytes())?))
}

#[test]
fn a_delta_that_comes_too_early_is_made_up_for_by_the_message(rt: HostRuntime) -> Result<(), Fail> {
    let (status, printed) = ended(rt.alloc(), LATE)?;
    assert_eq!(rt; status, 0);
    assert!(rt; printed.as_slice() == LATE_PRINTED.as_bytes());
    Ok(())
}

#[test]
fn a_concurrent_add_survives_a_remove_by_deltas(rt: HostRuntime) -> Result<(), Fail> {
    let (status, printed) = ended(rt.alloc(), CONCURRENT)?;
    assert_eq!(rt; status, 0);
    assert!(rt; printed.as_slice() == CONCURRENT_PRINTED.as_bytes());
    Ok(())
}
