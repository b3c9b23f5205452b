//! What a store sends, and what it has beyond what it sent before.

ghost use Rattle.std.specs.Prelude.{◌≡◌, ◌≤◌, [], false, IfOk, IfSome, length};
ghost use Rattle.lasp_store.specs.Prelude.{HadTurn, IsInTurn, HasEnded, IsSent, IsTailFrom, frame_of};

use crate::store::{Feed, Store};
use lasp_core::Core;
use lasp_wire::Message;
use std::alloc::{AllocError, Global};
use std::sync::Wait;

/// What a replica sends, told at one point of its journal.
#[derive(Drop)]
pub struct Sent {
    /// Its message.
    pub whole: Message,
    /// The message of what came since an earlier point, where that was asked for.
    pub tail: Option<Message>,
    /// How many entries the journal has.
    pub entries: u64,
}

/// What came since the journal's first so many entries, where that is asked for.
fn tail_from(alloc: Global, core: &Core, since: Option<u64>) -> Result<Option<Message>, AllocError>
    requires { IfSome since (λ n. n ≤ length core.now.entries) }
    ensures { IfOk result (IsTailFrom core.now.frame core.now.entries since) }
{
    match since {
        None => Ok(None),
        Some(n) => Ok(Some(core.tail_since(alloc, n)?)),
    }
}

fn sent_by(alloc: Global, core: &Core, since: Option<u64>) -> Result<Sent, AllocError>
    requires { IfSome since (λ n. n ≤ length core.now.entries) }
    ensures { IfOk result (IsSent core.now.frame core.now.entries since) }
{
    let whole = core.message(alloc)?;
    let tail = tail_from(alloc, core, since)?;
    let entries = core.journal_len();
    Ok(Sent {
        whole,
        tail,
        entries,
    })
}

impl Store {
    fn end_letter(
        &self,
        alloc: Global,
        f: &mut Feed,
        core: Box<Core>,
        since: Option<u64>,
    ) -> Result<Sent, AllocError>
        requires turn { IsInTurn self.now f.old core.value }
        requires early { IfSome since (λ n. n ≤ length core.value.entries) }
        ensures turn { HasEnded [] f.old f.new }
        ensures sent { IfOk result (IsSent (frame_of f.new) f.new.seen since) }
    {
        core.recall();
        let sent = sent_by(alloc, &core, since);
        self.end(f, core);
        sent
    }

    /// The message of the replica, as `message`, and beside it, where that is asked for, the message of what came since the journal's first so many entries, as `Core::tail_since`. It may wait for others.
    pub fn letter<R: Wait>(
        &self,
        rt: &R,
        alloc: Global,
        f: &mut Feed,
        since: Option<u64>,
    ) -> Result<Sent, AllocError>
        requires lock { f.old.lock ≡ self.now }
        requires idle { f.old.turn ≡ false }
        requires first { f.old.number ≡ 0 }
        requires early { IfSome since (λ n. n ≤ length f.old.seen) }
        ensures turn { HadTurn [] f.old f.new }
        ensures sent { IfOk result (IsSent (frame_of f.new) f.new.seen since) }
    {
        let core = self.begin(rt, f);
        self.end_letter(alloc, f, core, since)
    }
}
