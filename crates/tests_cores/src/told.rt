//! Cores as texts.

use crate::cores::is_derived;
use lasp_core::{Act, Core, Released};
use lasp_drive::push_counts;
use lasp_graph::States;
use lasp_state::{Op, State};
use lasp_value::Value;
use lasp_wire::Message;
use std::alloc::{AllocError, Global};

/// The number that a value is, or 0.
fn number_in(value: &Value) -> i64 {
    match value {
        Value::Int(number) => *number,
        _ => 0,
    }
}

/// An update by its word and its numbers.
fn tell_update(out: &mut String, x: u8, op: &Op) -> Result<(), AllocError> {
    match op {
        Op::Add(value) => write!(out, " add {x} {}", number_in(value)),
        Op::Remove(value) => write!(out, " remove {x} {}", number_in(value)),
        Op::Insert(value) => write!(out, " insert {x} {}", number_in(value)),
        Op::Inc(by) => write!(out, " inc {x} {by}"),
        Op::Max(number) => write!(out, " max {x} {number}"),
        Op::Join(state) => {
            write!(out, " join {x} ")?;
            state.print_into(out)
        }
    }
}

/// An act by its numbers.
fn tell_act(out: &mut String, act: &Act) -> Result<(), AllocError> {
    match act {
        Act::Update(x, op) => tell_update(out, *x, op),
        Act::Deliver(number, _) => write!(out, " delivers {number}"),
        Act::Bind(y, n) => write!(out, " binds {y} at {n}"),
        Act::Extend(decl) => write!(out, " declares {}", decl.name.as_str()),
    }
}

/// Each entry by its caller and its act.
pub fn tell_entries(out: &mut String, core: &Core) -> Result<(), AllocError> {
    for i in 0..core.journal_len() {
        let entry = core.entry_at(i);
        write!(out, " {}:", entry.by)?;
        tell_act(out, &entry.what)?;
        out.push(';')?;
    }
    Ok(())
}

/// A state with its number of rows.
fn tell_state(out: &mut String, state: &State) -> Result<(), AllocError> {
    state.print_into(out)?;
    write!(out, " {};", state.size())
}

/// Each state with its number of rows.
pub fn tell_states(out: &mut String, states: &States) -> Result<(), AllocError> {
    for x in 0..states.len() {
        out.push(' ')?;
        tell_state(out, states.at(x))?;
    }
    Ok(())
}

/// A state with its number of rows, as a text.
fn told_state(alloc: Global, state: &State) -> Result<String, AllocError> {
    let mut out = String::new(alloc);
    tell_state(&mut out, state)?;
    Ok(out)
}

/// Whether two states are told alike.
pub fn is_same(alloc: Global, one: &State, other: &State) -> Result<bool, AllocError> {
    let text = told_state(alloc, one)?;
    Ok(text.as_str() == told_state(alloc, other)?.as_str())
}

/// Which derived variables are clean, and whether the core is settled.
pub fn tell_settled(out: &mut String, core: &Core) -> Result<(), AllocError> {
    out.push(' ')?;
    for var in 0..16 {
        if is_derived(core, var) {
            out.push(if core.is_clean(var) { 'y' } else { 'n' })?;
        }
    }
    match core.check_settled() {
        Ok(length) => write!(out, " settled at {length}"),
        Err(lacks) => write!(out, " {lacks}"),
    }
}

/// The reads that wait, each with its variable.
pub fn tell_reads(out: &mut String, core: &Core) -> Result<(), AllocError> {
    for i in 0..core.parked_len() {
        let read = core.parked_at(i);
        write!(out, " {} of {};", read.number(), read.var())?;
    }
    Ok(())
}

/// How many updates of each replica are known.
pub fn tell_counts(out: &mut String, counts: &[u64]) -> Result<(), AllocError> {
    for count in counts {
        write!(out, " {count}")?;
    }
    Ok(())
}

/// The sources of a message, each by its name and its state, and its counts.
pub fn tell_message(out: &mut String, message: &Message) -> Result<(), AllocError> {
    for i in 0..message.len() {
        write!(out, " {} ", message.name_at(i).as_str())?;
        tell_state(out, message.state_at(i))?;
    }
    tell_counts(out, message.counts().as_slice())
}

/// The numbers of the reads that a call released.
pub fn tell_released(out: &mut String, released: &Released) -> Result<(), AllocError> {
    out.push_str(" ok")?;
    for i in 0..released.len() {
        write!(out, " {}", released.at(i).number())?;
    }
    Ok(())
}

/// What a call that adds no entry must leave as it is: how many entries there are, the counts and the states.
fn tell_core(out: &mut String, core: &Core) -> Result<(), AllocError> {
    write!(out, "{}", core.journal_len())?;
    push_counts(out, core.counts().as_slice())?;
    tell_states(out, core.states())
}

/// The same as a text.
pub fn told_core(alloc: Global, core: &Core) -> Result<String, AllocError> {
    let mut out = String::new(alloc);
    tell_core(&mut out, core)?;
    Ok(out)
}

/// The reads that wait, as a text.
pub fn told_reads(alloc: Global, core: &Core) -> Result<String, AllocError> {
    let mut out = String::new(alloc);
    tell_reads(&mut out, core)?;
    Ok(out)
}
