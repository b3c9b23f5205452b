//! What the feed does: updates, deliveries, declarations, and what it sends.

ghost use Rattle.std.specs.Prelude.{◌≡◌, ◌↔◌, ◌+◌, ◌<◌, ◌∷◌, [], false, length, IfOk, OnOk, OnErr, IsTrue};
ghost use Rattle.lasp_store.specs.Prelude.{AllByRecursion, arc_value, content_at, kind_at, is_source, variable_limit, entry, is_met, val, counts, BringsNothing, after_miss, op_of, decl_of, held_of, IsSmall, update_refusal, IsAnswered, IsDelivered, AreAscending, state_after, IsBusy, HadTurn, TriedTurn, IsInTurn, HasEnded, frame_of, graph_at, vals_at, counts_at, graph_seen, graph, vals, peer_of, BringsAsMuch, Tried, IfRefused};
ghost use Rattle.model_readings.specs.Lawful.{IsNext as MayFollow};
ghost use Rattle.model_journal.specs.Entry as model;

use crate::store::{Feed, Store};
use lasp_core::{Core, DeliverRefused, Released, Try, UpdateRefused};
use lasp_graph::Decl;
use lasp_state::{Op, State};
use lasp_wire::Message;
use std::alloc::{AllocError, Global};
use std::sync::{Arc, Wait};

impl Store {
    fn end_update(
        &self,
        f: &mut Feed,
        mut core: Box<Core>,
        var: u8,
        op: &Op,
        is_known: bool,
    ) -> Result<Released, UpdateRefused>
        requires turn { IsInTurn self.now f.old core.value }
        requires first { f.old.number ≡ 0 }
        requires small { IsSmall (frame_of f.old).nodes op.now }
        requires known { IsTrue is_known → BringsNothing (val core.value.frame core.value.entries var) (counts core.value.frame core.value.entries) core.value.frame.replica (op_of op.now) }
        ensures ok { OnOk result (HasEnded (entry 0 (model.Update var (op_of op.now)) ∷ []) f.old f.new) }
        ensures err { OnErr result (HasEnded [] f.old f.new) }
        ensures answer { IsAnswered (update_refusal (frame_of f.new).nodes (frame_of f.new).replica (graph_at f.new) (vals_at f.new) (counts_at f.new) var op.now) result }
        ensures met { IfOk result (AllByRecursion (λ r. IsTrue (is_met (frame_of f.new) f.new.seen r))) }
        ensures ascending { IfOk result AreAscending }
    {
        core.recall();
        let updated = core.update_with(0, var, op, is_known);
        core.recall();
        self.end(f, core);
        updated
    }

    /// Updates a source, as `Core::update`. It may wait for others.
    pub fn update<R: Wait>(
        &self,
        rt: &R,
        f: &mut Feed,
        var: u8,
        op: &Op,
    ) -> Result<Released, UpdateRefused>
        requires lock { f.old.lock ≡ self.now }
        requires idle { f.old.turn ≡ false }
        requires first { f.old.number ≡ 0 }
        requires small { IsSmall (frame_of f.old).nodes op.now }
        ensures ok { OnOk result (HadTurn (entry 0 (model.Update var (op_of op.now)) ∷ []) f.old f.new) }
        ensures err { OnErr result (HadTurn [] f.old f.new) }
        ensures answer { IsAnswered (update_refusal (frame_of f.new).nodes (frame_of f.new).replica (graph_at f.new) (vals_at f.new) (counts_at f.new) var op.now) result }
        ensures met { IfOk result (AllByRecursion (λ r. IsTrue (is_met (frame_of f.new) f.new.seen r))) }
        ensures ascending { IfOk result AreAscending }
    {
        let core = self.begin(rt, f);
        self.end_update(f, core, var, op, false)
    }

    /// The same. Where it is known that what a source holds stays as it is, as by a state that it holds already, no row is looked at. It may wait for others.
    pub fn update_with<R: Wait>(
        &self,
        rt: &R,
        f: &mut Feed,
        var: u8,
        op: &Op,
        is_known: bool,
    ) -> Result<Released, UpdateRefused>
        requires lock { f.old.lock ≡ self.now }
        requires idle { f.old.turn ≡ false }
        requires first { f.old.number ≡ 0 }
        requires small { IsSmall (frame_of f.old).nodes op.now }
        requires source { IsTrue is_known → (var < length (graph_seen f.old)) × IsTrue (is_source (kind_at (graph_seen f.old) var)) }
        requires known { IsTrue is_known → BringsNothing (content_at (peer_of (frame_of f.old) f.old.seen).contents var) (peer_of (frame_of f.old) f.old.seen).counts (frame_of f.old).replica (op_of op.now) }
        ensures ok { OnOk result (HadTurn (entry 0 (model.Update var (op_of op.now)) ∷ []) f.old f.new) }
        ensures err { OnErr result (HadTurn [] f.old f.new) }
        ensures answer { IsAnswered (update_refusal (frame_of f.new).nodes (frame_of f.new).replica (graph_at f.new) (vals_at f.new) (counts_at f.new) var op.now) result }
        ensures met { IfOk result (AllByRecursion (λ r. IsTrue (is_met (frame_of f.new) f.new.seen r))) }
        ensures ascending { IfOk result AreAscending }
    {
        f.known();
        let core = self.begin(rt, f);
        f.known();
        self.end_update(f, core, var, op, is_known)
    }

    /// The same, where nobody else has the core. It never waits.
    pub fn try_update(&self, f: &mut Feed, var: u8, op: &Op) -> Result<Released, Try<UpdateRefused>>
        requires lock { f.old.lock ≡ self.now }
        requires idle { f.old.turn ≡ false }
        requires first { f.old.number ≡ 0 }
        requires small { IsSmall (frame_of f.old).nodes op.now }
        ensures busy { IsBusy result → f.new ≡ after_miss f.old }
        ensures missed { IsBusy result ↔ (f.new.misses ≡ f.old.misses + 1) }
        ensures ok { OnOk result (TriedTurn (entry 0 (model.Update var (op_of op.now)) ∷ []) f.old f.new) }
        ensures refused { IfRefused result (λ why. TriedTurn [] f.old f.new) }
        ensures answer { Tried (IsAnswered (update_refusal (frame_of f.new).nodes (frame_of f.new).replica (graph_at f.new) (vals_at f.new) (counts_at f.new) var op.now)) result }
        ensures met { IfOk result (AllByRecursion (λ r. IsTrue (is_met (frame_of f.new) f.new.seen r))) }
        ensures ascending { IfOk result AreAscending }
    {
        match self.try_begin(f) {
            None => Err(Try::Busy),
            Some(core) => match self.end_update(f, core, var, op, false) {
                Ok(released) => Ok(released),
                Err(why) => Err(Try::Refused(why)),
            },
        }
    }

    fn end_deliver(
        &self,
        f: &mut Feed,
        mut core: Box<Core>,
        number: u32,
        m: &Arc<Message>,
        part: &Message,
    ) -> Result<Released, DeliverRefused>
        requires turn { IsInTurn self.now f.old core.value }
        requires first { f.old.number ≡ 0 }
        requires part { BringsAsMuch (graph core.value.frame core.value.entries) (vals core.value.frame core.value.entries) (arc_value m.now) part.now }
        ensures ok { OnOk result (HasEnded (entry 0 (model.Deliver number (arc_value m.now)) ∷ []) f.old f.new) }
        ensures err { OnErr result (HasEnded [] f.old f.new) }
        ensures answer { IsDelivered (frame_of f.new).nodes (graph_at f.new) (vals_at f.new) (arc_value m.now) result }
        ensures met { IfOk result (AllByRecursion (λ r. IsTrue (is_met (frame_of f.new) f.new.seen r))) }
        ensures ascending { IfOk result AreAscending }
    {
        core.recall();
        let delivered = core.deliver_part(0, number, m, part);
        core.recall();
        self.end(f, core);
        delivered
    }

    /// Joins a message in, as `Core::deliver`. It may wait for others.
    pub fn deliver<R: Wait>(
        &self,
        rt: &R,
        f: &mut Feed,
        number: u32,
        m: &Arc<Message>,
    ) -> Result<Released, DeliverRefused>
        requires lock { f.old.lock ≡ self.now }
        requires idle { f.old.turn ≡ false }
        requires first { f.old.number ≡ 0 }
        ensures ok { OnOk result (HadTurn (entry 0 (model.Deliver number (arc_value m.now)) ∷ []) f.old f.new) }
        ensures err { OnErr result (HadTurn [] f.old f.new) }
        ensures answer { IsDelivered (frame_of f.new).nodes (graph_at f.new) (vals_at f.new) (arc_value m.now) result }
        ensures met { IfOk result (AllByRecursion (λ r. IsTrue (is_met (frame_of f.new) f.new.seen r))) }
        ensures ascending { IfOk result AreAscending }
    {
        let core = self.begin(rt, f);
        self.end_deliver(f, core, number, m, m)
    }

    /// The same by a message that brings as much to the sources that the feed has seen, as `Core::deliver_part`. It may wait for others.
    pub fn deliver_part<R: Wait>(
        &self,
        rt: &R,
        f: &mut Feed,
        number: u32,
        m: &Arc<Message>,
        part: &Message,
    ) -> Result<Released, DeliverRefused>
        requires lock { f.old.lock ≡ self.now }
        requires idle { f.old.turn ≡ false }
        requires first { f.old.number ≡ 0 }
        requires part { BringsAsMuch (graph_seen f.old) (peer_of (frame_of f.old) f.old.seen).contents (arc_value m.now) part.now }
        ensures ok { OnOk result (HadTurn (entry 0 (model.Deliver number (arc_value m.now)) ∷ []) f.old f.new) }
        ensures err { OnErr result (HadTurn [] f.old f.new) }
        ensures answer { IsDelivered (frame_of f.new).nodes (graph_at f.new) (vals_at f.new) (arc_value m.now) result }
        ensures met { IfOk result (AllByRecursion (λ r. IsTrue (is_met (frame_of f.new) f.new.seen r))) }
        ensures ascending { IfOk result AreAscending }
    {
        f.known();
        let core = self.begin(rt, f);
        f.known();
        self.end_deliver(f, core, number, m, part)
    }

    /// The same, where nobody else has the core. It never waits.
    pub fn try_deliver(
        &self,
        f: &mut Feed,
        number: u32,
        m: &Arc<Message>,
    ) -> Result<Released, Try<DeliverRefused>>
        requires lock { f.old.lock ≡ self.now }
        requires idle { f.old.turn ≡ false }
        requires first { f.old.number ≡ 0 }
        ensures busy { IsBusy result → f.new ≡ after_miss f.old }
        ensures missed { IsBusy result ↔ (f.new.misses ≡ f.old.misses + 1) }
        ensures ok { OnOk result (TriedTurn (entry 0 (model.Deliver number (arc_value m.now)) ∷ []) f.old f.new) }
        ensures refused { IfRefused result (λ why. TriedTurn [] f.old f.new) }
        ensures answer { Tried (IsDelivered (frame_of f.new).nodes (graph_at f.new) (vals_at f.new) (arc_value m.now)) result }
        ensures met { IfOk result (AllByRecursion (λ r. IsTrue (is_met (frame_of f.new) f.new.seen r))) }
        ensures ascending { IfOk result AreAscending }
    {
        match self.try_begin(f) {
            None => Err(Try::Busy),
            Some(core) => match self.end_deliver(f, core, number, m, m) {
                Ok(released) => Ok(released),
                Err(why) => Err(Try::Refused(why)),
            },
        }
    }

    fn end_extend(&self, f: &mut Feed, mut core: Box<Core>, d: &Decl) -> Result<(), AllocError>
        requires turn { IsInTurn self.now f.old core.value }
        requires first { f.old.number ≡ 0 }
        requires room { length (graph_seen f.old) < variable_limit }
        requires next { MayFollow (graph_seen f.old) (decl_of d.now) }
        ensures ok { OnOk result (HasEnded (entry 0 (model.Extend (decl_of d.now)) ∷ []) f.old f.new) }
        ensures err { OnErr result (HasEnded [] f.old f.new) }
    {
        core.recall();
        let extended = core.extend(0, d);
        core.recall();
        self.end(f, core);
        extended
    }

    /// Declares a variable behind the others, as `Core::extend`. The feed alone declares variables, so the graph is the one that it has seen. It may wait for others.
    pub fn extend<R: Wait>(&self, rt: &R, f: &mut Feed, d: &Decl) -> Result<(), AllocError>
        requires lock { f.old.lock ≡ self.now }
        requires idle { f.old.turn ≡ false }
        requires first { f.old.number ≡ 0 }
        requires room { length (graph_seen f.old) < variable_limit }
        requires next { MayFollow (graph_seen f.old) (decl_of d.now) }
        ensures ok { OnOk result (HadTurn (entry 0 (model.Extend (decl_of d.now)) ∷ []) f.old f.new) }
        ensures err { OnErr result (HadTurn [] f.old f.new) }
    {
        f.known();
        let core = self.begin(rt, f);
        f.known();
        self.end_extend(f, core, d)
    }

    /// The state of a source, shared: what a script's mark keeps. It may wait for others.
    pub fn mark<R: Wait>(&self, rt: &R, f: &mut Feed, var: u8) -> Result<Arc<State>, AllocError>
        requires lock { f.old.lock ≡ self.now }
        requires idle { f.old.turn ≡ false }
        requires first { f.old.number ≡ 0 }
        requires var { var < length (graph_seen f.old) }
        requires source { IsTrue (is_source (kind_at (graph_seen f.old) var)) }
        ensures turn { HadTurn [] f.old f.new }
        ensures state { IfOk result (λ s. held_of (arc_value s) ≡ state_after (frame_of f.new) f.new.seen var) }
    {
        self.look(rt, f, var)
    }

    /// The same, where nobody else has the core. It never waits.
    pub fn try_mark(&self, f: &mut Feed, var: u8) -> Result<Arc<State>, Try<AllocError>>
        requires lock { f.old.lock ≡ self.now }
        requires idle { f.old.turn ≡ false }
        requires first { f.old.number ≡ 0 }
        requires var { var < length (graph_seen f.old) }
        requires source { IsTrue (is_source (kind_at (graph_seen f.old) var)) }
        ensures busy { IsBusy result → f.new ≡ after_miss f.old }
        ensures missed { IsBusy result ↔ (f.new.misses ≡ f.old.misses + 1) }
        ensures ok { OnOk result (TriedTurn [] f.old f.new) }
        ensures refused { IfRefused result (λ why. TriedTurn [] f.old f.new) }
        ensures state { IfOk result (λ s. held_of (arc_value s) ≡ state_after (frame_of f.new) f.new.seen var) }
    {
        self.try_look(f, var)
    }
}
