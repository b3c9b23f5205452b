//! All cases, and what is told of them.

use crate::case::Case;
use crate::text::split;
use anyhow::Result;
use std::alloc::{AllocError, AllocGlobal, Global};
use std::random::RandomSource;
use std::sync::Wait;
use std::thread::Threads;

/// The cases as far as they were read.
#[derive(Drop)]
pub struct Cases {
    alloc: Global,
    // the case that was begun last, where one was
    name: String,
    case: Case,
    report: String,
    passed: u64,
    failed: u64,
}

impl Cases {
    pub fn new(alloc: Global) -> Cases {
        Cases {
            alloc,
            name: String::new(alloc),
            case: Case::new(alloc),
            report: String::new(alloc),
            passed: 0,
            failed: 0,
        }
    }

    /// Takes in a line.
    pub fn take<R: Threads + Wait + RandomSource + AllocGlobal + Sync>(
        &mut self,
        rt: &R,
        line: &str,
    ) -> Result<()> {
        let (word, rest) = split(line);
        match word.as_bytes() {
            b"" | b"#" => Ok(()),
            b"case" => self.begin(rest),
            _ => self.case.take(rt, word, rest),
        }
    }

    fn begin(&mut self, name: &str) -> Result<()> {
        self.end_case()?;
        self.name = String::from_str(self.alloc, name)?;
        self.case = Case::new(self.alloc);
        Ok(())
    }

    /// Tells how the case went that was begun last.
    fn end_case(&mut self) -> Result<(), AllocError> {
        if self.name.is_empty() {
            return Ok(());
        }
        let wrong = self.case.finish()?;
        if wrong.is_empty() {
            self.passed = self.passed.saturating_add(1);
            writeln!(self.report, "{} passed", self.name)
        } else {
            self.failed = self.failed.saturating_add(1);
            writeln!(self.report, "{} failed:{wrong}", self.name)
        }
    }

    /// What is told of all cases.
    pub fn finish(mut self) -> Result<String, AllocError> {
        self.end_case()?;
        writeln!(
            self.report,
            "{} cases passed, {} failed",
            self.passed, self.failed
        )?;
        Ok(self.report)
    }
}
