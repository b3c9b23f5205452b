//! Letters and ends, put into the mailboxes to all other nodes.

ghost use Rattle.std.specs.Prelude.{◌≡◌, ◌≢◌, ◌+◌, ◌*◌, ◌<◌, ◌≤◌, ◌^◌, ◌++◌, ◌∷◌, [], ℕ, Some, IfOk, OnOk, length, slice_get};
ghost use Rattle.std.specs.Option.{option_map};
ghost use Rattle.lasp_live.specs.Posted.{MayPost, IsMailOf, AreOfTheSame, IsPutTo, HavePut};
ghost use Rattle.lasp_live.specs.Prelude.{arc_value, Out, mails, message_in, plan_of};

use crate::mail::{Letter, Mail};
use lasp_graph::Graph;
use lasp_mail::{Item, Mailbox, Outlet};
use lasp_script::Script;
use lasp_wire::Message;
use std::alloc::AllocError;
use std::sync::{Arc, Wait};

/// Puts one more item into a mailbox, behind so many.
fn put_one<R: Wait>(
    rt: &R,
    mailbox: &Mailbox<Mail>,
    o: &mut Outlet<Mail>,
    number: u64,
    body: Mail,
) -> Result<(), AllocError>
    requires of { o.old.of ≡ mailbox.now }
    requires number { number ≡ length o.old.put }
    requires small { length o.old.put < 2 ^ 32 }
    requires plan { Some (plan_of body) ≡ mailbox.now.frame }
    ensures of { o.new.of ≡ o.old.of }
    ensures ok { OnOk result (mails o.new.put ≡ mails o.old.put ++ message_in body ∷ []) }
{
    match mailbox.put(rt, o, Item { number, body }) {
        Ok(()) => Ok(()),
        Err(_) => Err(AllocError),
    }
}

/// What goes to one node: the message, or the end where there is none.
fn mail_of(
    graph: &Arc<Graph>,
    script: &Arc<Script>,
    message: &Option<Arc<Message>>,
) -> Result<Mail, AllocError>
    requires { MayPost (arc_value graph.now, arc_value script.now) (option_map arc_value message.now) }
    ensures { IfOk result (IsMailOf (arc_value graph.now, arc_value script.now) (option_map arc_value message.now)) }
{
    let graph = Arc::try_clone(graph)?;
    let script = Arc::try_clone(script)?;
    match message {
        Some(message) => {
            let message = Arc::try_clone(message)?;
            Ok(Mail::Letter(Letter::of(message, graph, script)))
        }
        None => Ok(Mail::End(graph, script)),
    }
}

/// Puts one more item into the mailbox from this node to node p.
fn put_to<R: Wait>(
    rt: &R,
    me: u8,
    boxes: &[Mailbox<Mail>],
    outs: &mut Vec<Outlet<Mail>>,
    p: usize,
    number: u64,
    body: Mail,
) -> Result<(), AllocError>
    requires few { length outs.old.items ≤ 8 }
    requires there { p < length outs.old.items }
    requires of { (o : Out) → slice_get outs.old.items p ≡ Some o → slice_get boxes.now (me * length outs.old.items + p) ≡ Some o.of }
    requires plan { (o : Out) → slice_get outs.old.items p ≡ Some o → o.of.frame ≡ Some (plan_of body) }
    requires number { (o : Out) → slice_get outs.old.items p ≡ Some o → length o.put ≡ number }
    requires small { number < 2 ^ 32 }
    ensures of { AreOfTheSame outs.old.items outs.new.items }
    ensures put { OnOk result (IsPutTo p (message_in body) outs.old.items outs.new.items) }
{
    let mailbox = &boxes[usize::from(me) * outs.len() + p];
    put_one(rt, mailbox, &mut outs[p], number, body)
}

/// Puts a letter of the message, behind so many items, or the end where there is no message, into the mailbox from this node to each other one.
pub(crate) fn post<R: Wait>(
    rt: &R,
    me: u8,
    graph: &Arc<Graph>,
    script: &Arc<Script>,
    boxes: &[Mailbox<Mail>],
    outs: &mut Vec<Outlet<Mail>>,
    number: u64,
    message: &Option<Arc<Message>>,
) -> Result<(), AllocError>
    requires may { MayPost (arc_value graph.now, arc_value script.now) (option_map arc_value message.now) }
    requires few { length outs.old.items ≤ 8 }
    requires member { me < length outs.old.items }
    requires of { (p : ℕ) (o : Out) → slice_get outs.old.items p ≡ Some o → slice_get boxes.now (me * length outs.old.items + p) ≡ Some o.of }
    requires plan { (p : ℕ) (o : Out) → slice_get outs.old.items p ≡ Some o → o.of.frame ≡ Some (arc_value graph.now, arc_value script.now) }
    requires number { (p : ℕ) (o : Out) → slice_get outs.old.items p ≡ Some o → p ≢ me → length o.put ≡ number }
    requires small { number < 2 ^ 32 }
    ensures of { AreOfTheSame outs.old.items outs.new.items }
    ensures put { OnOk result (HavePut me (option_map arc_value message.now) outs.old.items outs.new.items) }
{
    for p in 0..outs.len() {
        if p != usize::from(me) {
            let body = mail_of(graph, script, message)?;
            put_to(rt, me, boxes, outs, p, number, body)?;
        }
    }
    Ok(())
}
