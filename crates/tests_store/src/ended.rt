//! What a store leaves that is closed.

use crate::wrong::Wrong;
use lasp_core::{Act, Core};
use lasp_fns::Library;
use lasp_graph::{EvalAll, States, eval_by_variable};
use lasp_state::{Op, State};
use lasp_value::Value;
use model_runs::sources_stay_within_the_format;
use std::alloc::{AllocError, Global};

/// A state as text.
fn told(alloc: Global, state: &State) -> Result<String, AllocError> {
    let mut out = String::new(alloc);
    state.print_into(&mut out)?;
    Ok(out)
}

/// Whether two lists of states read alike.
fn are_alike(alloc: Global, ones: &States, others: &States) -> Result<bool, AllocError> {
    if ones.len() != others.len() {
        return Ok(false);
    }
    for var in 0..ones.len() {
        if told(alloc, ones.at(var))?.as_str() != told(alloc, others.at(var))?.as_str() {
            return Ok(false);
        }
    }
    Ok(true)
}

/// The states by plain evaluation of a core's sources, or none where the functions aren't those of the library.
fn evaluated(alloc: Global, core: &Core, lib: &Library) -> Result<States, EvalAll> {
    core.recall();
    sources_stay_within_the_format();
    let graph = core.graph();
    if graph.fits(lib) {
        eval_by_variable(alloc, graph, lib, core.states())
    } else {
        Ok(States::new(alloc))
    }
}

/// Whether the states of a core are what plain evaluation gives of its sources.
pub fn is_evaluated(alloc: Global, core: &Core, lib: &Library) -> Result<bool, Wrong> {
    let states = evaluated(alloc, core, lib)?;
    Ok(are_alike(alloc, core.states(), &states)?)
}

/// What a feed did: it added the numbers below one, each to variable 0 or 1 in turn, joined message 7 in before it added a number, and declared variable 4 before it added another.
#[derive(Clone, Copy)]
pub struct Fed {
    pub added: u32,
    pub delivered: u32,
    pub declared: u32,
}

/// How far the entries of a store were read.
#[derive(Drop)]
struct Reading {
    added: u32,
    is_delivered: bool,
    is_declared: bool,
    // how many results each hand handed in
    one: u64,
    other: u64,
    // where the declaration stands
    declared_at: u64,
}

impl Reading {
    /// Whether an update is the feed's next one.
    fn is_next(&mut self, fed: Fed, var: u8, op: &Op) -> bool {
        let added = self.added;
        self.added = added.saturating_add(1);
        let is_late = (added >= fed.delivered && !self.is_delivered)
            || (added >= fed.declared && !self.is_declared);
        let is_number = match op {
            Op::Add(Value::Int(number)) => *number == i64::from(added),
            _ => false,
        };
        !is_late && is_number && u32::from(var) == added % 2
    }

    /// Whether a result may stand at a place: of a derived variable that there was after the first `n` entries, which stand before it.
    fn is_result(&self, place: u64, var: u8, n: u64) -> bool {
        let is_there = var == 2
            || var == 3
            || (var == 4 && self.is_declared && n > self.declared_at);
        is_there && n <= place
    }

    /// Whether the entry at a place is lawful, and where it is no result the feed's next call.
    fn takes(&mut self, fed: Fed, place: u64, by: u64, act: &Act) -> bool {
        match act {
            Act::Bind(var, n) => {
                self.one = self.one.saturating_add(u64::from(by == 1));
                self.other = self.other.saturating_add(u64::from(by == 2));
                by <= 2 && self.is_result(place, *var, *n)
            }
            Act::Update(var, op) => by == 0 && self.is_next(fed, *var, op),
            Act::Deliver(number, _) => {
                let is_once = !self.is_delivered && self.added == fed.delivered;
                self.is_delivered = true;
                by == 0 && is_once && *number == 7
            }
            Act::Extend(decl) => {
                let is_once = !self.is_declared && self.added == fed.declared;
                self.is_declared = true;
                self.declared_at = place;
                by == 0 && is_once && decl.name.as_str() == "w"
            }
        }
    }
}

/// How many results each of two hands handed in; nothing where an entry isn't lawful, or the others aren't the feed's calls in their order, each once.
pub fn entries_of(core: &Core, fed: Fed) -> Option<(u64, u64)> {
    let mut reading = Reading {
        added: 0,
        is_delivered: false,
        is_declared: false,
        one: 0,
        other: 0,
        declared_at: 0,
    };
    for place in 0..core.journal_len() {
        let entry = core.entry_at(place);
        if !reading.takes(fed, place, entry.by, &entry.what) {
            return None;
        }
    }
    if reading.added == fed.added && reading.is_delivered && reading.is_declared {
        Some((reading.one, reading.other))
    } else {
        None
    }
}
