//! Worked runs of the program, as data: standard input has cases of files, words and how the program must end on them, and of each a line tells whether it did.
//!
//! A case is a line `case NAME` and lines behind it:
//!
//!     file NAME TEXT        begins a file with the text, which may be missing
//!     more TEXT             continues it with the text
//!     hex DIGITS            continues it with these bytes
//!     each FROM END TEXT    continues it with the text for each number from FROM to below END, which stands where the text has `#`
//!     times COUNT TEXT      continues it with the text so many times
//!     pad LENGTH            continues it with spaces until it has so many bytes
//!     fail_read NUMBER      lets the case's read of this number fail, counted from 0
//!     err_room COUNT        lets the next run's line of an error fail after so many bytes
//!     fail_write NUMBER     lets the next run's write of this number to its text's output fail, counted from 0
//!     run WORDS             runs the program on these words
//!     keep NAME             makes a file of the text that the run wrote, which isn't compared then
//!     unread NAME           the read that was set to fail is still to come: this file's is the next one, and fails
//!
//! Behind `run` stands how it must end: with status 0 and nothing written, but for
//!
//!     out TEXT              this line of its text
//!     out_each FROM END TEXT    such a line for each number
//!     out_hex DIGITS        these bytes of its text
//!     ends STATUS TEXT      this status and this line of an error
//!     ends_part STATUS TEXT    the same, the line cut behind the text
//!     cuts WORDS            runs on these words whose writes fail after so many bytes, for each count below the length of the text that stands
//!                           above: these bytes are written, and the write fault is told
//!
//! Lines that are empty or begin with `# ` are passed over.
#![tactic(auto)]

mod case;
mod cases;
mod ended;
mod program;
mod text;

use crate::cases::Cases;
use std::io::{BufRead, BufReader};

fn main(rt: HostRuntime) -> anyhow::Result<()> {
    let mut cases = Cases::new(rt.alloc());
    for line in BufReader::new(rt.alloc(), rt.reader())?.lines(rt.alloc()) {
        cases.take(&rt, line?.as_str())?;
    }
    let report = cases.finish()?;
    print!(rt; "{report}")?;
    Ok(())
}
