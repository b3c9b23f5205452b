//! Updates that bring nothing to their source.

ghost use Rattle.std.specs.Prelude.{◌≡◌, IsTrue, OnOk, OnErr, length};
ghost use Rattle.lasp_replica.specs.Prelude.{arc_value, entry, op_of, content_at, contents_of, BringsNothing, IsReplica, Goes, Stays, IsSmall, update_refusal, IsAnswered};
ghost use Rattle.model_journal.specs.Entry as model;

use super::Replica;
use super::update::{copied, recall_op};
use crate::entry::{Act, Entry};
use crate::refused::UpdateRefused;
use lasp_state::Op;

impl Replica {
    /// Updates a source. Where it is known that what the source holds stays as it is, as by a state that it holds already, the update is counted and written down and no row is looked at.
    pub fn update_with(
        &mut self,
        by: u64,
        var: u8,
        op: &Op,
        is_known: bool,
    ) -> Result<(), UpdateRefused>
        requires replica { IsReplica self.old }
        requires small { IsSmall (length self.old.counts) op.now }
        requires known { IsTrue is_known → BringsNothing (content_at (contents_of self.old.states) var) self.old.counts self.old.me (op_of op.now) }
        ensures ok { OnOk result (Goes (entry by (model.Update var (op_of op.now))) self.old self.new) }
        ensures err { OnErr result (Stays self.old self.new) }
        ensures answer { IsAnswered (update_refusal (length self.old.counts) self.old.me (arc_value self.old.graph) (contents_of self.old.states) self.old.counts var op.now) result }
    {
        if is_known {
            return self.update_known(by, var, op);
        }
        self.update(by, var, op)
    }

    /// An update by which what the source holds stays as it is.
    fn update_known(&mut self, by: u64, var: u8, op: &Op) -> Result<(), UpdateRefused>
        requires replica { IsReplica self.old }
        requires small { IsSmall (length self.old.counts) op.now }
        requires known { BringsNothing (content_at (contents_of self.old.states) var) self.old.counts self.old.me (op_of op.now) }
        ensures ok { OnOk result (Goes (entry by (model.Update var (op_of op.now))) self.old self.new) }
        ensures err { OnErr result (Stays self.old self.new) }
        ensures answer { IsAnswered (update_refusal (length self.old.counts) self.old.me (arc_value self.old.graph) (contents_of self.old.states) self.old.counts var op.now) result }
    {
        recall_op(op);
        self.check_update(var, op)?;
        let own = copied(self.allocator(), op)?;
        self.journal.reserve(1)?;
        let me = u64::from(self.me);
        let k = self.counts.at(me) + 1;
        self.counts.set(me, k);
        let _ = self.journal.push(Entry {
            by,
            what: Act::Update(var, own),
        });
        Ok(())
    }
}
