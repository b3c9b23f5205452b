//! What replicas do: updates, and messages.

ghost use Rattle.std.specs.Prelude.{◌≡◌, ◌<◌, OnOk, OnErr, length, slice_set};
ghost use Rattle.lasp_dots.specs.Prelude.{count_at, Add, Remove, Update, Post, Take, count_limit, join_dots, add_dot, remove_dots, dots_at, dot_act, val_of, Memory};

use super::replicas::DotReplicas;
use crate::{DotRefused, DotSet};
use lasp_value::Value;
use std::alloc::AllocError;

/// The refusal of a set whose count has room: memory is wanting.
fn want_of_memory(refused: DotRefused) -> AllocError
    requires { refused ≡ Memory }
{
    let _memory = refused;
    AllocError
}

fn add_at(nodes: &mut Vec<DotSet>, p: u8, value: &Value) -> Result<(), AllocError>
    requires node { p < length nodes.old.items }
    requires wide { length (dots_at nodes.old.items p).counts ≡ length nodes.old.items }
    requires left { count_at (dots_at nodes.old.items p).counts p < count_limit }
    ensures ok { OnOk result (nodes.new.items ≡ slice_set nodes.old.items p (add_dot (val_of value.now) p (dots_at nodes.old.items p))) }
    ensures err { OnErr result (nodes.new.items ≡ nodes.old.items) }
{
    match nodes[usize::from(p)].add(value, p) {
        Ok(_) => Ok(()),
        Err(refused) => Err(want_of_memory(refused)),
    }
}

fn remove_at(nodes: &mut Vec<DotSet>, p: u8, value: &Value) -> Result<(), AllocError>
    requires node { p < length nodes.old.items }
    requires wide { length (dots_at nodes.old.items p).counts ≡ length nodes.old.items }
    requires left { count_at (dots_at nodes.old.items p).counts p < count_limit }
    ensures ok { OnOk result (nodes.new.items ≡ slice_set nodes.old.items p (remove_dots (val_of value.now) p (dots_at nodes.old.items p))) }
    ensures err { OnErr result (nodes.new.items ≡ nodes.old.items) }
{
    match nodes[usize::from(p)].remove(value, p) {
        Ok(_) => Ok(()),
        Err(refused) => Err(want_of_memory(refused)),
    }
}

fn take_at(nodes: &mut Vec<DotSet>, p: u8, message: &DotSet) -> Result<(), AllocError>
    requires node { p < length nodes.old.items }
    requires wide { length (dots_at nodes.old.items p).counts ≡ length message.now.counts }
    ensures ok { OnOk result (nodes.new.items ≡ slice_set nodes.old.items p (join_dots (dots_at nodes.old.items p) message.now)) }
    ensures err { OnErr result (nodes.new.items ≡ nodes.old.items) }
{
    match nodes[usize::from(p)].join_in(message) {
        Ok(_) => Ok(()),
        Err(memory) => Err(memory),
    }
}

impl DotReplicas {
    /// Node p adds a value. Its update has to have a count left.
    pub(crate) fn add(&mut self, p: u8, value: &Value) -> Result<(), AllocError>
        requires node { p < length self.old.nodes }
        requires left { count_at (dots_at self.old.nodes p).counts p < count_limit }
        ensures ok { OnOk result (self.new ≡ dot_act self.old (Update p 0 (Add (val_of value.now)))) }
        ensures err { OnErr result (self.new ≡ self.old) }
    {
        self.recall();
        add_at(&mut self.nodes, p, value)
    }

    /// Node p removes a value. Its update has to have a count left.
    pub(crate) fn remove(&mut self, p: u8, value: &Value) -> Result<(), AllocError>
        requires node { p < length self.old.nodes }
        requires left { count_at (dots_at self.old.nodes p).counts p < count_limit }
        ensures ok { OnOk result (self.new ≡ dot_act self.old (Update p 0 (Remove (val_of value.now)))) }
        ensures err { OnErr result (self.new ≡ self.old) }
    {
        self.recall();
        remove_at(&mut self.nodes, p, value)
    }

    /// Node p sends what it holds, under the next number. It costs a share for each piece of the set.
    pub(crate) fn post(&mut self, p: u8) -> Result<(), AllocError>
        requires { p < length self.old.nodes }
        ensures ok { OnOk result (self.new ≡ dot_act self.old (Post p)) }
        ensures err { OnErr result (self.new ≡ self.old) }
    {
        self.recall();
        let message = self.nodes[usize::from(p)].try_clone()?;
        self.sent.push(message)?;
        Ok(())
    }

    /// Node p takes message i.
    pub(crate) fn take(&mut self, p: u8, i: usize) -> Result<(), AllocError>
        requires node { p < length self.old.nodes }
        requires message { i < length self.old.sent }
        ensures ok { OnOk result (self.new ≡ dot_act self.old (Take p i)) }
        ensures err { OnErr result (self.new ≡ self.old) }
    {
        self.recall();
        take_at(&mut self.nodes, p, &self.sent[i])
    }
}
