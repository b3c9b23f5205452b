//! A run of the program over files and outputs in memory.

use crate::ended::Ended;
use lasp_edge::{MemFiles, MemSink};
use lasp_program::answer_call;
use lasp_workers::NoGate;
use std::alloc::{AllocError, AllocGlobal, Global};
use std::random::RandomSource;
use std::sync::Wait;
use std::thread::Threads;

/// What the outputs of a run take.
#[derive(Clone, Copy)]
pub struct Room {
    /// How many bytes of its text.
    pub out: u64,
    /// How many bytes of its line of an error.
    pub err: u64,
    /// Which write of its text fails, counted from 0, if one does.
    pub failing: Option<u64>,
}

/// The words of a command line, each as its bytes; a word `\xff` is the one byte 255.
fn words_of(alloc: Global, line: &str) -> Result<Vec<Vec<u8>>, AllocError> {
    let mut words = Vec::new(alloc);
    for word in line.split_whitespace() {
        let bytes: &[u8] = match word.as_bytes() {
            b"\\xff" => b"\xff",
            bytes => bytes,
        };
        words.push(Vec::from_slice(alloc, bytes)?)?;
    }
    Ok(words)
}

/// How the program ends on these words, where its outputs have this room.
pub fn run_line<R: Threads + Wait + RandomSource + AllocGlobal + Sync>(
    rt: &R,
    alloc: Global,
    line: &str,
    files: &mut MemFiles,
    room: Room,
) -> Result<Ended, AllocError> {
    let words = words_of(alloc, line)?;
    let mut out = MemSink::new(alloc, room.out)?;
    let mut err = MemSink::new(alloc, room.err)?;
    if let Some(call) = room.failing {
        out.fail_at(call, 0)?;
    }
    let status = answer_call(rt, alloc, &words, files, &mut out, &mut err, &NoGate)?;
    Ok(Ended {
        status,
        out: Vec::from_slice(alloc, out.bytes())?,
        err: Vec::from_slice(alloc, err.bytes())?,
    })
}
