//! Deliveries of messages to a replica.

ghost use Rattle.std.specs.Prelude.{◌≡◌, ◌<◌, ◌≤◌, ◌↔◌, IsTrue, OnOk, OnErr, IfOk, length, map, nat_le};
ghost use Rattle.lasp_replica.specs.Prelude.{arc_value, join_contents, of_set, size_of, row_limit, set, sent_at, brought, gained, IsSentTo, entry, content_of, held_of, held_at, contents_of, AreJoinable, told, IsReplica, Goes, Stays, IsDelivered, IsOfGraph, BringsAsMuch, AreSourcesOfKind, IsLike, AreSmall, IsRefusedAt, AreJoined, IsRefused, AreRecordable, AreRecordedTo};
ghost use Rattle.model_states.specs.Counts as plain;
ghost use Rattle.model_journal.specs.Entry as model;
ghost use Rattle.lasp_state.specs.State.{shape_of};
ghost use Rattle.lasp_replica.specs.Delivery.{IsTaken};

use super::Replica;
use super::sizes::{fits, news, rows_fit};
use super::upkeep::tend_all;
use crate::History;
use crate::entry::{Act, Entry};
use crate::refused::DeliverRefused;
use crate::sources::begins;
use lasp_graph::{Graph, States};
use lasp_logset::OrSet;
use lasp_state::State;
use lasp_wire::{Counts, Message};
use std::alloc::Global;
use std::sync::Arc;

/// Raises each count to the other one where that is larger.
fn raise(counts: &mut Counts, others: &Counts)
    requires { length counts.old ≡ length others.now }
    ensures { counts.new ≡ plain.larger counts.old others.now }
{
    for i in 0..counts.len() {
        let count = counts.at(i).max(others.at(i));
        counts.set(i, count);
    }
}

/// Whether the join of a set's state with some rows has no more rows than a variable may have.
fn fits_with(state: &State, rows: &OrSet) -> bool
    requires { shape_of state.now ≡ set }
    ensures { result ≡ nat_le (size_of (join_contents (content_of state.now) (of_set rows.now))) row_limit }
{
    match state {
        State::Set(set) => rows_fit(set, rows),
        _ => unreachable!(),
    }
}

/// Joins the rows that are new in a set into variable x, and makes its history ready where there are any; true exactly there. It costs one look-up for each row that is sent; the rest costs a few look-ups for each new row, and a share of the state's log.
fn join_set(
    alloc: Global,
    states: &mut States,
    history: &mut History,
    x: u8,
    sent: &State,
) -> Result<bool, DeliverRefused>
    requires within { x < length states.old }
    requires joinable { AreJoinable (held_at states.old x) (held_of sent.now) }
    requires kind { shape_of sent.now ≡ set }
    requires small { size_of (held_at states.old x).content ≤ row_limit }
    ensures history { history.new.history ≡ history.old.history }
    ensures ok { IfOk result (λ grows. IsTaken states.old x (content_of sent.now) grows states.new history.new) }
    ensures refused { IsRefusedAt x (join_contents (held_at states.old x).content (content_of sent.now)) result }
{
    let place = x as u64;
    let state: &State = states.at(place);
    state.recall();
    let rows = news(alloc, state, sent)?;
    if rows.rows() == 0 {
        return Ok(false);
    }
    if !fits_with(state, &rows) {
        return Err(DeliverRefused::TooManyRows(x));
    }
    history.prepare(&rows)?;
    let more = State::Set(rows);
    states.join_at(alloc, place, &more)?;
    Ok(true)
}

/// Joins a state that is no set into variable x, and makes its history ready where it grows; true exactly there.
fn join_other(
    alloc: Global,
    states: &mut States,
    history: &mut History,
    x: u8,
    sent: &State,
) -> Result<bool, DeliverRefused>
    requires within { x < length states.old }
    requires joinable { AreJoinable (held_at states.old x) (held_of sent.now) }
    requires small { size_of (held_at states.old x).content ≤ row_limit }
    ensures history { history.new.history ≡ history.old.history }
    ensures ok { IfOk result (λ grows. IsTaken states.old x (content_of sent.now) grows states.new history.new) }
    ensures refused { IsRefusedAt x (join_contents (held_at states.old x).content (content_of sent.now)) result }
{
    let place = x as u64;
    let state: &State = states.at(place);
    state.recall();
    if sent.le(state) {
        return Ok(false);
    }
    if !fits(state, sent) {
        return Err(DeliverRefused::TooManyRows(x));
    }
    let rows = news(alloc, state, sent)?;
    history.prepare(&rows)?;
    states.join_at(alloc, place, sent)?;
    Ok(true)
}

/// Joins a state into variable x, and makes its history ready where it grows; true exactly there. Of a set the new rows alone are joined.
fn join_state(
    alloc: Global,
    states: &mut States,
    history: &mut History,
    x: u8,
    sent: &State,
) -> Result<bool, DeliverRefused>
    requires within { x < length states.old }
    requires joinable { AreJoinable (held_at states.old x) (held_of sent.now) }
    requires small { size_of (held_at states.old x).content ≤ row_limit }
    ensures history { history.new.history ≡ history.old.history }
    ensures ok { IfOk result (λ grows. IsTaken states.old x (content_of sent.now) grows states.new history.new) }
    ensures refused { IsRefusedAt x (join_contents (held_at states.old x).content (content_of sent.now)) result }
{
    match sent {
        State::Set(_) => join_set(alloc, states, history, x, sent),
        _ => join_other(alloc, states, history, x, sent),
    }
}

/// Joins what a message has of its source number i, if it has so many, into variable x, and makes its history ready where it grows; true exactly there.
fn join_source(
    alloc: Global,
    states: &mut States,
    history: &mut History,
    x: u8,
    message: &Message,
    i: u64,
) -> Result<bool, DeliverRefused>
    requires within { x < length states.old }
    requires like { IsLike states.old x i message.now }
    requires small { size_of (held_at states.old x).content ≤ row_limit }
    ensures history { history.new.history ≡ history.old.history }
    ensures ok { IfOk result (λ grows. IsTaken states.old x (sent_at message.now.sources i) grows states.new history.new) }
    ensures refused { IsRefusedAt x (join_contents (held_at states.old x).content (sent_at message.now.sources i)) result }
{
    message.recall();
    if i < message.len() {
        return join_state(alloc, states, history, x, message.state_at(i));
    }
    states.at(x as u64).recall();
    Ok(false)
}

/// Joins the sources of a message into states, and tells which of them grow.
fn join_sources(
    alloc: Global,
    graph: &Graph,
    states: &mut States,
    histories: &mut Vec<History>,
    message: &Message,
) -> Result<Vec<bool>, DeliverRefused>
    requires long { length states.old ≡ length graph.now }
    requires many { length histories.old.items ≡ length graph.now }
    requires sent { IsSentTo (length message.now.counts) graph.now message.now }
    requires kinds { AreSourcesOfKind (length message.now.counts) graph.now states.old }
    requires small { AreSmall states.old }
    ensures told { map told histories.new.items ≡ map told histories.old.items }
    ensures ok { IfOk result (λ grow. AreJoined graph.now message.now states.old states.new histories.new.items grow.items) }
    ensures refused { IsRefused (gained (brought graph.now message.now) 0 (contents_of states.old)) result }
{
    graph.recall();
    let mut grow = Vec::new(alloc);
    let mut i = 0;
    for x in 0..graph.len() {
        let mut grows = false;
        if graph.at(x).kind.is_source() {
            grows = join_source(
                alloc,
                states,
                &mut histories[x as usize],
                x as u8,
                message,
                i,
            )?;
            i += 1;
        }
        grow.push(grows)?;
    }
    Ok(grow)
}

/// Writes the growth at an entry into the histories that grow.
fn record_all(histories: &mut Vec<History>, grow: &[bool], entry: u64)
    requires many { length histories.old.items ≡ length grow.now }
    requires ready { AreRecordable grow.now entry histories.old.items }
    ensures { AreRecordedTo (length grow.now) grow.now entry histories.old.items histories.new.items }
{
    for x in 0..grow.len() {
        if grow[x] {
            histories[x].record(entry);
        }
    }
}

impl Replica {
    /// Whether a message is one of this graph, among as many nodes.
    fn suits(&self, message: &Message) -> bool
        ensures { IsTrue result ↔ IsOfGraph (length self.now.counts) (arc_value self.now.graph) message.now }
    {
        message.counts().len() == self.counts.len() && begins(&self.graph, message)
    }

    /// Joins a message in by one that brings as much to what is there, and is looked at for rows in its place. The message itself is such a one. So is one of its counts without sources, where both are of one run and the replica counts all that the message counts. All memory is taken before anything changes. It costs a look-up for each row of the other one.
    pub fn deliver_part(
        &mut self,
        by: u64,
        number: u32,
        message: &Arc<Message>,
        part: &Message,
    ) -> Result<(), DeliverRefused>
        requires replica { IsReplica self.old }
        requires part { BringsAsMuch (arc_value self.old.graph) (contents_of self.old.states) (arc_value message.now) part.now }
        ensures ok { OnOk result (Goes (entry by (model.Deliver number (arc_value message.now))) self.old self.new) }
        ensures err { OnErr result (Stays self.old self.new) }
        ensures answer { IsDelivered (length self.old.counts) (arc_value self.old.graph) (contents_of self.old.states) (arc_value message.now) result }
    {
        if !self.suits(message) {
            return Err(DeliverRefused::WrongGraph);
        }
        message.recall();
        part.recall();
        let alloc = self.allocator();
        let share = Arc::try_clone(message)?;
        let mut states = self.states.try_clone(alloc)?;
        let grow = join_sources(alloc, &self.graph, &mut states, &mut self.histories, part)?;
        self.journal.reserve(1)?;
        record_all(&mut self.histories, &grow, self.journal.len() as u64);
        self.states = states;
        tend_all(&mut self.states);
        raise(&mut self.counts, message.counts());
        let _ = self.journal.push(Entry {
            by,
            what: Act::Deliver(number, share),
        });
        Ok(())
    }
}
