//! What calls came to, as a text.

use crate::wrong::Wrong;
use lasp_core::{Act, Core, NotYet, Released, Settle, Try};
use lasp_state::{Op, State};
use std::alloc::{AllocError, Global};
use std::fmt::Debug;
use std::sync::Arc;

/// A text to which each call adds what it came to. Where no memory was left for it once, it is broken: so a test asks at its end alone.
#[derive(Drop)]
pub struct Told {
    text: String,
    is_broken: bool,
}

impl Told {
    /// A text of no call.
    pub fn new(alloc: Global) -> Told {
        Told {
            text: String::new(alloc),
            is_broken: false,
        }
    }

    /// The text, unless it is broken.
    pub fn into_text(self) -> Result<String, Wrong> {
        if self.is_broken {
            return Err(Wrong);
        }
        Ok(self.text)
    }

    fn note(&mut self, written: Result<(), AllocError>) {
        if written.is_err() {
            self.is_broken = true;
        }
    }

    /// These words.
    pub fn say(&mut self, words: &str) {
        let written = write!(self.text, "{words}; ");
        self.note(written);
    }

    /// The numbers of the reads that a call released, or why it was refused.
    pub fn done<E: Debug + Drop>(&mut self, done: Result<Released, E>) {
        let written = write_done(&mut self.text, done);
        self.note(written);
    }

    /// The same of a call that was tried once.
    pub fn tried<E: Debug + Drop>(&mut self, done: Result<Released, Try<E>>) {
        let written = match done {
            Ok(released) => write_done::<E>(&mut self.text, Ok(released)),
            Err(Try::Refused(why)) => write_done(&mut self.text, Err(why)),
            Err(Try::Busy) => self.text.push_str("busy; "),
        };
        self.note(written);
    }

    /// The states that two calls found, each where there was one.
    pub fn states(&mut self, found: (Option<Arc<State>>, Option<Arc<State>>)) {
        let one = write_state(&mut self.text, found.0);
        self.note(one);
        let other = write_state(&mut self.text, found.1);
        self.note(other);
    }

    /// How many entries a settled store has, or which variable lacks inputs.
    pub fn checked(&mut self, checked: Result<u64, NotYet>) {
        let written = match checked {
            Ok(entries) => write!(self.text, "settled at {entries}; "),
            Err(lacks) => write!(self.text, "{} lacks {}; ", lacks.var, lacks.input),
        };
        self.note(written);
    }

    /// How many entries a store has that was settled, or why it isn't.
    pub fn settled(&mut self, settled: Result<u64, Settle>) {
        let written = match settled {
            Ok(entries) => write!(self.text, "settled at {entries}; "),
            Err(Settle::TooLarge(var)) => write!(self.text, "{var} is too large; "),
            Err(Settle::Memory) => self.text.push_str("no memory; "),
        };
        self.note(written);
    }

    /// A core: what its entries do, its states, its counts, and the reads that wait.
    pub fn core(&mut self, core: &Core) {
        for i in 0..core.journal_len() {
            let written = write_act(&mut self.text, &core.entry_at(i).what);
            self.note(written);
        }
        for x in 0..core.states().len() {
            let written = write_print(&mut self.text, core.states().at(x));
            self.note(written);
        }
        let written = write_counts(&mut self.text, core);
        self.note(written);
        for i in 0..core.parked_len() {
            let read = core.parked_at(i);
            let written = write!(self.text, "read {} of {}; ", read.number(), read.var());
            self.note(written);
        }
    }

    /// A variable, if there is one.
    pub fn var(&mut self, var: Option<u8>) {
        let written = match var {
            Some(var) => write!(self.text, "job of {var}; "),
            None => self.text.push_str("no job; "),
        };
        self.note(written);
    }

    /// A number of these.
    pub fn count(&mut self, many: u64, what: &str) {
        let written = write!(self.text, "{many} {what}; ");
        self.note(written);
    }
}

fn write_act(told: &mut String, act: &Act) -> Result<(), AllocError> {
    match act {
        Act::Update(x, Op::Add(_)) => write!(told, "add {x}; "),
        Act::Update(x, Op::Inc(_)) => write!(told, "inc {x}; "),
        Act::Update(x, _) => write!(told, "updates {x}; "),
        Act::Deliver(number, _) => write!(told, "message {number}; "),
        Act::Bind(y, _) => write!(told, "binds {y}; "),
        Act::Extend(decl) => write!(told, "declares {}; ", decl.name.as_str()),
    }
}

fn write_counts(told: &mut String, core: &Core) -> Result<(), AllocError> {
    told.push_str("counts")?;
    for count in core.counts().as_slice() {
        write!(told, " {count}")?;
    }
    told.push_str("; ")
}

fn write_print(told: &mut String, state: &State) -> Result<(), AllocError> {
    state.print_into(told)?;
    told.push_str("; ")
}

fn write_done<E: Debug + Drop>(
    told: &mut String,
    done: Result<Released, E>,
) -> Result<(), AllocError> {
    match done {
        Ok(released) => {
            told.push_str("ok")?;
            for i in 0..released.len() {
                write!(told, " {}", released.at(i).number())?;
            }
        }
        Err(why) => write!(told, "{why:?}")?,
    }
    told.push_str("; ")
}

fn write_state(told: &mut String, found: Option<Arc<State>>) -> Result<(), AllocError> {
    match found {
        Some(state) => state.print_into(told)?,
        None => told.push_str("none")?,
    }
    told.push_str("; ")
}
