//! A desk with all that lists of calls need beside it. Each call is told, and checked.

use crate::call::{Call, Doing, Until, Verb, What, read_call};
use crate::cores::{core_of, declare, evaluated, is_derived, update};
use crate::desk::{Desk, Done};
use crate::library::library;
use crate::told::{
    is_same, tell_counts, tell_entries, tell_message, tell_reads, tell_released, tell_settled,
    tell_states, told_core, told_reads,
};
use crate::traits::owed;
use crate::wrong::Wrong;
use lasp_core::{Core, DeliverRefused, Released, UpdateRefused, begins};
use lasp_fns::{Library, StepLib};
use lasp_gossip::Network;
use lasp_graph::States;
use lasp_node::message_of;
use lasp_wire::Message;
use std::alloc::{AllocError, Global};
use std::fmt::Debug;

/// What may be declared behind a graph.
const DECLARATIONS: [&str; 5] = [
    r#"["b","orset"]"#,
    r#"["u","union","b","a"]"#,
    r#"["d","orset"]"#,
    r#"["n","union","u","d"]"#,
    r#"["r","fold","n",["modulo",7],"itself"]"#,
];

/// How often what came.
#[derive(Clone, Copy, Debug)]
pub struct Tally {
    /// Updates and deliveries that were refused.
    pub refused: u32,
    /// Entries after which the core was compared with plain evaluation.
    pub compared: u32,
    /// Those after which it was settled.
    pub settled: u32,
}

/// Replica 0 of two, whose calls are tested, and replica 1, whose messages it gets.
#[derive(Drop)]
pub struct Table<'a> {
    alloc: Global,
    lib: &'a Library,
    by_rows: StepLib<'a>,
    by_base: StepLib<'a>,
    pub desk: Desk,
    other: Core,
    network: Network,
    // what the last call came to, with room for the number of a read that was opened
    told: String,
    pub tally: Tally,
}

impl<'a> Table<'a> {
    /// Two cores of one graph.
    pub fn new(alloc: Global, lib: &'a Library, graph: &str) -> Result<Table<'a>, Wrong> {
        let core = core_of(alloc, graph, lib, 0)?;
        let other = core_of(alloc, graph, lib, 1)?;
        Ok(Table {
            alloc,
            lib,
            by_rows: StepLib::new(lib),
            by_base: StepLib::new(lib),
            desk: Desk::new(alloc, core)?,
            other,
            network: Network::new(alloc, 268_435_456),
            told: String::with_capacity(alloc, 256)?,
            tally: Tally {
                refused: 0,
                compared: 0,
                settled: 0,
            },
        })
    }

    /// Makes a call. One that adds no entry leaves the core as it is, but for a read that it opens or closes; after one that adds entries the core is compared with plain evaluation. A call that is refused, for want of memory too, adds none.
    pub fn play(&mut self, call: Call) -> Result<(), Wrong> {
        let length = self.desk.core().journal_len();
        let core = told_core(self.alloc, self.desk.core())?;
        let reads = told_reads(self.alloc, self.desk.core())?;
        self.told.clear();
        let acted = self.act(call);
        if self.desk.core().journal_len() != length {
            acted?;
            return self.compare();
        }
        let is_about_reads = matches!(call.verb, Verb::Open(_) | Verb::Close) && acted.is_ok();
        if told_core(self.alloc, self.desk.core())?.as_str() != core.as_str() {
            return Err(Wrong::Changed);
        }
        if !is_about_reads && told_reads(self.alloc, self.desk.core())?.as_str() != reads.as_str() {
            return Err(Wrong::Changed);
        }
        acted
    }

    /// Makes a call, and tells what it comes to.
    fn act(&mut self, call: Call) -> Result<(), Wrong> {
        let place = usize::from(call.first);
        match call.verb {
            Verb::Update(doing) => self.update(call, doing),
            Verb::Fill(doing) => self.fill(call, doing),
            Verb::Declare => self.declare(call),
            Verb::Send => self.send(),
            Verb::Stray => self.send_stray(),
            Verb::Deliver => self.deliver(u32::from(call.first)),
            Verb::Next => self.take(None),
            Verb::Take => self.take(Some(call.first)),
            Verb::End => self.end(place),
            Verb::Back => {
                self.desk.back(place);
                Ok(())
            }
            Verb::Work => self.work(),
            Verb::Settle => self.settle(call.first),
            Verb::Open(until) => self.open(call, until),
            Verb::Ask => self.ask(place),
            Verb::Close => {
                self.desk.close(place);
                Ok(())
            }
            Verb::Tell(what) => self.tell(what),
        }
    }

    /// Tells which reads a call released, or why it was refused, but for want of memory.
    fn tell_done<E: Debug + Drop>(
        &mut self,
        done: Result<Released, E>,
        is_wanting: bool,
    ) -> Result<(), Wrong> {
        match done {
            Ok(released) => tell_released(&mut self.told, &released)?,
            Err(_) if is_wanting => return Err(Wrong::Refused),
            Err(why) => {
                self.tally.refused = self.tally.refused.saturating_add(1);
                write!(self.told, " {why:?}")?;
            }
        }
        Ok(())
    }

    /// An update, of which nothing is told where it is the other core's.
    fn update(&mut self, call: Call, doing: Doing) -> Result<(), Wrong> {
        if call.is_there {
            let done = update(self.alloc, &mut self.other, call.first, doing, call.second);
            return pass_over(done);
        }
        let done = self.desk.update(self.alloc, call.first, doing, call.second);
        let is_wanting = matches!(done, Err(UpdateRefused::Memory));
        self.tell_done(done, is_wanting)
    }

    /// Updates by each number from 0 on, or so often by 1.
    fn fill(&mut self, call: Call, doing: Doing) -> Result<(), Wrong> {
        for n in 0..call.second {
            let number = if matches!(doing, Doing::Count) { 1 } else { n };
            let done = if call.is_there {
                update(self.alloc, &mut self.other, call.first, doing, number)
            } else {
                self.desk.update(self.alloc, call.first, doing, number)
            };
            pass_over(done)?;
        }
        Ok(())
    }

    /// Declares a variable of the list.
    fn declare(&mut self, call: Call) -> Result<(), Wrong> {
        let Some(text) = DECLARATIONS.get(usize::from(call.first)) else {
            return Err(Wrong::Line);
        };
        if call.is_there {
            declare(self.alloc, &mut self.other, self.lib, text)
        } else {
            self.desk.declare(self.alloc, self.lib, text)
        }
    }

    /// Sends a message, and tells its number and the bytes of all.
    fn post(&mut self, message: Message) -> Result<(), Wrong> {
        if self.network.len() > 1_000_000 {
            return Err(Wrong::Refused);
        }
        match self.network.send(message) {
            Ok(number) => write!(self.told, " {number}, {} bytes", self.network.size()?)?,
            Err(_) => return Err(Wrong::Refused),
        }
        Ok(())
    }

    /// Sends a message of the other core.
    fn send(&mut self) -> Result<(), Wrong> {
        let message = message_of(self.alloc, &self.other)?;
        self.post(message)
    }

    /// Sends a message of another graph.
    fn send_stray(&mut self) -> Result<(), Wrong> {
        let stranger = core_of(self.alloc, r#"[["z","orset"]]"#, self.lib, 1)?;
        let message = message_of(self.alloc, &stranger)?;
        self.post(message)
    }

    /// Delivers a message, where it was sent.
    fn deliver(&mut self, number: u32) -> Result<(), Wrong> {
        if u64::from(number) >= self.network.len() {
            return Ok(());
        }
        let message = self.network.receive(number)?;
        if !begins(self.desk.core().graph(), &message) {
            self.told.push_str(" of another graph:")?;
        }
        let done = self.desk.deliver(number, &message);
        let is_wanting = matches!(done, Err(DeliverRefused::Memory));
        self.tell_done(done, is_wanting)
    }

    /// Tells of which variable a job is that is taken, how many rows changed for it, and how many it gained.
    fn take(&mut self, var: Option<u8>) -> Result<(), Wrong> {
        match self
            .desk
            .take(self.alloc, &mut self.by_rows, &mut self.by_base, var)?
        {
            Some(Done { var, rows, gained }) => {
                write!(self.told, " {var}, {gained} gained by {rows}")?;
            }
            None => self.told.push_str(" none")?,
        }
        Ok(())
    }

    /// Hands in the result of a job that is kept.
    fn end(&mut self, place: usize) -> Result<(), Wrong> {
        match self.desk.end(place)? {
            Some(released) => tell_released(&mut self.told, &released)?,
            None => self.told.push_str(" none")?,
        }
        Ok(())
    }

    /// Does the next job.
    fn work(&mut self) -> Result<(), Wrong> {
        match self
            .desk
            .work(self.alloc, &mut self.by_rows, &mut self.by_base)?
        {
            Some(released) => tell_released(&mut self.told, &released)?,
            None => self.told.push_str(" none")?,
        }
        Ok(())
    }

    /// Brings a variable up in place.
    fn settle(&mut self, var: u8) -> Result<(), Wrong> {
        match self.desk.settle(&mut self.by_rows, var)? {
            Some(released) => tell_released(&mut self.told, &released)?,
            None => self.told.push_str(" none")?,
        }
        Ok(())
    }

    /// Opens a read, and tells its number.
    fn open(&mut self, call: Call, until: Until) -> Result<(), Wrong> {
        match self.desk.open(self.alloc, call.first, until, call.second)? {
            Some(number) => write!(self.told, " {number}")?,
            None => self.told.push_str(" unsuited")?,
        }
        Ok(())
    }

    /// Tells what a read is answered.
    fn ask(&mut self, place: usize) -> Result<(), Wrong> {
        match self.desk.ask(place)? {
            Some(state) => {
                self.told.push(' ')?;
                state.print_into(&mut self.told)?;
            }
            None => self.told.push_str(" waits")?,
        }
        Ok(())
    }

    /// Tells something of the core, or what the other one would send.
    fn tell(&mut self, what: What) -> Result<(), Wrong> {
        let core = self.desk.core();
        match what {
            What::Entries => tell_entries(&mut self.told, core)?,
            What::States => tell_states(&mut self.told, core.states())?,
            What::Settled => tell_settled(&mut self.told, core)?,
            What::Reads => tell_reads(&mut self.told, core)?,
            What::Counts => tell_counts(&mut self.told, core.counts().as_slice())?,
            What::Message => {
                let message = message_of(self.alloc, &self.other)?;
                tell_message(&mut self.told, &message)?;
            }
            What::Cost => write!(
                self.told,
                " {} by rows, {} by base, {} owed",
                self.by_rows.ticks(),
                self.by_base.ticks(),
                owed(core)
            )?,
        }
        Ok(())
    }

    /// Compares the core with plain evaluation, as far as it has followed its sources.
    fn compare(&mut self) -> Result<(), Wrong> {
        let core = self.desk.core();
        self.tally.compared = self.tally.compared.saturating_add(1);
        if core.check_settled().is_ok() {
            self.tally.settled = self.tally.settled.saturating_add(1);
        }
        let states = evaluated(self.alloc, core, self.lib)?;
        check_followed(self.alloc, core, &states)
    }

    /// Makes the calls of a text, and answers it with what they came to.
    fn play_all(&mut self, text: &str) -> Result<String, Wrong> {
        let mut out = String::new(self.alloc);
        for line in text.lines() {
            let Some(call) = read_call(line) else {
                return Err(Wrong::Line);
            };
            self.play(call)?;
            write_line(&mut out, line, self.told.as_str())?;
        }
        Ok(out)
    }
}

/// Passes over what an update came to, unless memory was wanting.
fn pass_over(done: Result<Released, UpdateRefused>) -> Result<(), Wrong> {
    match done {
        Err(UpdateRefused::Memory) => Err(Wrong::Refused),
        _ => Ok(()),
    }
}

/// A line up to its arrow, and then what was told, if anything was.
fn write_line(out: &mut String, line: &str, told: &str) -> Result<(), AllocError> {
    let call = match line.split_once(" ->") {
        Some((call, _)) => call,
        None => line,
    };
    out.push_str(call)?;
    if !told.is_empty() {
        out.push_str(" ->")?;
    }
    out.push_str(told)?;
    out.push('\n')
}

/// Whether a variable has followed the sources: it is one, or it is clean and its inputs are such.
fn has_followed(core: &Core, var: u8, before: &[bool]) -> bool {
    let graph = core.graph();
    if u64::from(var) >= graph.len() {
        return false;
    }
    match graph.at(u64::from(var)).kind.inputs() {
        Some((x, y)) => {
            before.get(usize::from(x)) == Some(&true)
                && before.get(usize::from(y)) == Some(&true)
                && is_derived(core, var)
                && core.is_clean(var)
        }
        None => true,
    }
}

/// The variables that have followed the sources are what plain evaluation gives.
fn check_followed(alloc: Global, core: &Core, wanted: &States) -> Result<(), Wrong> {
    let states = core.states();
    let mut followed = Vec::new(alloc);
    for var in 0..64u8 {
        let x = u64::from(var);
        if x >= states.len() || x >= wanted.len() {
            break;
        }
        let has_followed = has_followed(core, var, &followed);
        if has_followed && !is_same(alloc, states.at(x), wanted.at(x))? {
            return Err(Wrong::Evaluated);
        }
        followed.push(has_followed)?;
    }
    Ok(())
}

/// A text of calls of the core of a graph, with what they came to.
pub fn told(alloc: Global, graph: &str, text: &str) -> Result<String, Wrong> {
    let lib = library(alloc)?;
    let mut table = Table::new(alloc, &lib, graph)?;
    table.play_all(text)
}
