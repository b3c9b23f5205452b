//! Calls of the program by workers, over files and outputs in memory.

use lasp_edge::{MemFiles, MemSink};
use lasp_program::answer_call;
use lasp_workers::Gate;
use std::alloc::{AllocError, AllocGlobal, Global};
use std::random::RandomSource;
use std::sync::Wait;
use std::thread::Threads;

/// A call of the program by workers.
#[derive(Clone, Copy)]
pub(crate) struct Case {
    pub(crate) words: &'static str,
    pub(crate) graph: &'static str,
    pub(crate) script: &'static str,
    /// All that it prints, or how that begins where results stand in it, which may come in any order.
    pub(crate) printed: &'static str,
    pub(crate) is_whole: bool,
}

impl Case {
    /// Whether this may be printed.
    pub(crate) fn allows(&self, printed: &[u8]) -> bool {
        if self.is_whole {
            printed == self.printed.as_bytes()
        } else {
            printed.starts_with(self.printed.as_bytes())
        }
    }
}

/// The program's status and what it prints, where each of its workers passes this gate in its jobs.
pub(crate) fn ended<R: Threads + Wait + RandomSource + AllocGlobal + Sync, G: Gate + Sync>(
    rt: &R,
    alloc: Global,
    case: Case,
    gate: &G,
) -> Result<(u8, Vec<u8>), AllocError> {
    let mut files = MemFiles::new(alloc);
    files.put_file("graph", case.graph.as_bytes())?;
    files.put_file("script", case.script.as_bytes())?;
    let mut words = Vec::new(alloc);
    for word in case.words.split_whitespace() {
        words.push(Vec::from_slice(alloc, word.as_bytes())?)?;
    }
    let mut out = MemSink::new(alloc, 1_000)?;
    let mut err = MemSink::new(alloc, 1_000)?;
    let status = answer_call(rt, alloc, &words, &mut files, &mut out, &mut err, gate)?;
    Ok((status, Vec::from_slice(alloc, out.bytes())?))
}
