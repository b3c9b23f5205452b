//! The program `lasp`: its words, the real files and the standard streams, handed to the call that does the work.
#![tactic(auto)]

use lasp_edge::{DirFiles, StdSink};
use lasp_program::{answer_call, words_after_name};
use lasp_workers::NoGate;
use std::alloc::{AllocError, AllocGlobal};
use std::io::Write;
use std::process::ExitCode;
use std::random::RandomSource;
use std::sync::Wait;
use std::thread::Threads;

/// Answers the words behind the program's name over the real files and the standard streams, with the threads that this runtime has.
fn run<R: Threads + Wait + RandomSource + AllocGlobal + Sync>(
    rt: &HostRuntime,
    threads: &R,
) -> Result<u8, AllocError> {
    let words = words_after_name(rt.alloc(), rt)?;
    let mut files = DirFiles::new(rt);
    let mut out = StdSink::new(rt.stdout());
    let mut err = StdSink::new(rt.stderr());
    answer_call(
        threads,
        rt.alloc(),
        &words,
        &mut files,
        &mut out,
        &mut err,
        &NoGate,
    )
}

fn main(rt: HostRuntime) -> ExitCode {
    match run(&rt, &rt) {
        Ok(status) => ExitCode::from(status),
        Err(_) => {
            let _ = rt.stderr().write_all(b"out of memory\n");
            ExitCode::from(7)
        }
    }
}
