//! One case: its files, its runs, and how these must end.

use crate::ended::Ended;
use crate::program::{Room, run_line};
use crate::text::{add_line, each, split, times};
use anyhow::{Result, bail};
use lasp_edge::{Files, MemFiles};
use std::alloc::{AllocError, AllocGlobal, Global};
use std::mem;
use std::random::RandomSource;
use std::sync::Wait;
use std::thread::Threads;

/// What outputs take where nothing else is said.
const AMPLE: Room = Room {
    out: 4_000_000,
    err: 4_000_000,
    failing: None,
};

/// A case as far as it was read.
#[derive(Drop)]
pub struct Case {
    alloc: Global,
    files: MemFiles,
    // the file that was begun last
    name: String,
    bytes: Vec<u8>,
    // what the outputs of the next run take
    room: Room,
    // how many runs there were, how the last one ended, and how it must
    runs: u64,
    came: Ended,
    wanted: Ended,
    // what went wrong, or nothing
    wrong: String,
}

impl Case {
    pub fn new(alloc: Global) -> Case {
        Case {
            alloc,
            files: MemFiles::new(alloc),
            name: String::new(alloc),
            bytes: Vec::new(alloc),
            room: AMPLE,
            runs: 0,
            came: Ended::new(alloc),
            wanted: Ended::new(alloc),
            wrong: String::new(alloc),
        }
    }

    /// Takes in a line.
    pub fn take<R: Threads + Wait + RandomSource + AllocGlobal + Sync>(
        &mut self,
        rt: &R,
        word: &str,
        rest: &str,
    ) -> Result<()> {
        match word.as_bytes() {
            b"file" => self.begin_file(rest),
            b"more" => self.append(rest.as_bytes()),
            b"hex" => self.append(hex::decode(self.alloc, rest)?.as_slice()),
            b"each" => self.append(each(self.alloc, rest, "")?.as_bytes()),
            b"times" => self.append(times(self.alloc, rest)?.as_bytes()),
            b"pad" => self.pad(rest.parse()?),
            b"run" => self.run(rt, rest),
            b"cuts" => self.run_cuts(rt, rest),
            _ => self.take_other(word, rest),
        }
    }

    /// Takes in a line about the next run, or about the last one.
    fn take_other(&mut self, word: &str, rest: &str) -> Result<()> {
        match word.as_bytes() {
            b"fail_read" => self.files.fail_at(rest.parse()?)?,
            b"err_room" => self.room.err = rest.parse()?,
            b"fail_write" => self.room.failing = Some(rest.parse()?),
            b"keep" => self.keep(rest)?,
            b"unread" => self.want_unread(rest)?,
            b"out" => add_line(&mut self.wanted.out, rest)?,
            b"out_each" => self.want_bytes(each(self.alloc, rest, "\n")?.as_bytes())?,
            b"out_hex" => self.want_bytes(hex::decode(self.alloc, rest)?.as_slice())?,
            b"ends" => self.want_end(rest, "\n")?,
            b"ends_part" => self.want_end(rest, "")?,
            _ => bail!("no such line: {word}"),
        }
        Ok(())
    }

    fn begin_file(&mut self, rest: &str) -> Result<()> {
        let (name, text) = split(rest);
        self.name = String::from_str(self.alloc, name)?;
        self.bytes.clear();
        self.append(text.as_bytes())
    }

    /// Appends to the file that was begun last.
    fn append(&mut self, bytes: &[u8]) -> Result<()> {
        self.bytes.extend_from_slice(bytes)?;
        self.files
            .put_file(self.name.as_str(), self.bytes.as_slice())?;
        Ok(())
    }

    /// Continues the file that was begun last with spaces.
    fn pad(&mut self, length: usize) -> Result<()> {
        self.bytes.resize(length, b' ')?;
        self.append(b"")
    }

    fn run<R: Threads + Wait + RandomSource + AllocGlobal + Sync>(
        &mut self,
        rt: &R,
        line: &str,
    ) -> Result<()> {
        let room = mem::replace(&mut self.room, AMPLE);
        self.run_within(rt, line, room)
    }

    /// Runs the program with outputs of this room, behind a look at how the run before ended.
    fn run_within<R: Threads + Wait + RandomSource + AllocGlobal + Sync>(
        &mut self,
        rt: &R,
        line: &str,
        room: Room,
    ) -> Result<()> {
        self.compare()?;
        self.runs = self.runs.saturating_add(1);
        self.came = run_line(rt, self.alloc, line, &mut self.files, room)?;
        Ok(())
    }

    /// Runs the program with each room that is too small for what the last run must write.
    fn run_cuts<R: Threads + Wait + RandomSource + AllocGlobal + Sync>(
        &mut self,
        rt: &R,
        line: &str,
    ) -> Result<()> {
        let whole = Vec::from_slice(self.alloc, self.wanted.out.as_slice())?;
        for taken in 0..whole.len() {
            self.run_cut(rt, line, whole.as_slice(), taken)?;
        }
        Ok(())
    }

    /// Runs the program with room for so many bytes of this text, of which it leaves just these.
    fn run_cut<R: Threads + Wait + RandomSource + AllocGlobal + Sync>(
        &mut self,
        rt: &R,
        line: &str,
        whole: &[u8],
        taken: usize,
    ) -> Result<()> {
        self.run_within(
            rt,
            line,
            Room {
                out: taken as u64,
                ..AMPLE
            },
        )?;
        self.want_bytes(whole.get(..taken).unwrap_or(b""))?;
        self.want_end("5 write fault", "\n")
    }

    /// Makes a file of the text that the last run wrote.
    fn keep(&mut self, name: &str) -> Result<(), AllocError> {
        let out = mem::replace(&mut self.came.out, Vec::new(self.alloc));
        self.files.put_file(name, out.as_slice())
    }

    /// Reads this file, which must fail.
    fn want_unread(&mut self, name: &str) -> Result<(), AllocError> {
        if self.files.fetch(self.alloc, name, 4096).is_ok() {
            write!(self.wrong, " run {} made the read that fails", self.runs)?;
        }
        Ok(())
    }

    fn want_bytes(&mut self, bytes: &[u8]) -> Result<(), AllocError> {
        self.wanted.out.extend_from_slice(bytes)?;
        Ok(())
    }

    /// The last run must end with this status and this line.
    fn want_end(&mut self, rest: &str, behind: &str) -> Result<()> {
        let (status, line) = split(rest);
        self.wanted.status = status.parse()?;
        self.wanted.err.extend_from_slice(line.as_bytes())?;
        self.wanted.err.extend_from_slice(behind.as_bytes())?;
        Ok(())
    }

    /// Compares how the last run ended with how it must, and forgets both.
    fn compare(&mut self) -> Result<(), AllocError> {
        if !self.came.is_like(&self.wanted) {
            write!(self.wrong, " run {} ended with ", self.runs)?;
            self.came.tell(&mut self.wrong)?;
            self.wrong.push_str(" and not ")?;
            self.wanted.tell(&mut self.wrong)?;
        }
        self.came = Ended::new(self.alloc);
        self.wanted = Ended::new(self.alloc);
        Ok(())
    }

    /// What went wrong in the whole case.
    pub fn finish(&mut self) -> Result<&str, AllocError> {
        self.compare()?;
        if self.runs == 0 {
            self.wrong.push_str(" nothing is run")?;
        }
        Ok(self.wrong.as_str())
    }
}
