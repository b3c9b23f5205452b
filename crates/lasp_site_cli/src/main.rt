//! The program `site`: its words, the real files and the standard streams, handed to the call that does the work.
#![tactic(auto)]

mod answer;

use crate::answer::answer_call;
use lasp_edge::{DirFiles, StdSink};
use lasp_program::words_after_name;
use std::alloc::AllocError;
use std::io::Write;
use std::process::ExitCode;

/// Answers the words behind the program's name over the real files and the standard streams.
fn run(rt: &HostRuntime) -> Result<u8, AllocError> {
    let words = words_after_name(rt.alloc(), rt)?;
    let mut files = DirFiles::new(rt);
    let mut out = StdSink::new(rt.stdout());
    let mut err = StdSink::new(rt.stderr());
    answer_call(rt.alloc(), &words, &mut files, &mut out, &mut err)
}

fn main(rt: HostRuntime) -> ExitCode {
    match run(&rt) {
        Ok(status) => ExitCode::from(status),
        Err(_) => {
            let _ = rt.stderr().write_all(b"out of memory\n");
            ExitCode::from(7)
        }
    }
}
