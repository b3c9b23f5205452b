//! A sync: every node sends, and then each takes the messages of all others.

ghost use Rattle.std.specs.Prelude.{◌≡◌, ◌<◌, ◌≤◌, ◌+◌, OnOk, length, map, flat_map};
ghost use Rattle.lasp_dots.specs.Prelude.{range_with_len, takes, sync_acts, Post, dot_each};

use super::replicas::DotReplicas;
use std::alloc::AllocError;

impl DotReplicas {
    /// Every node sends, nodes ascending.
    fn post_all(&mut self) -> Result<(), AllocError>
        requires { length self.old.nodes ≤ 8 }
        ensures done { OnOk result (self.new ≡ dot_each self.old (map Post (range_with_len 0 (length self.old.nodes)))) }
        ensures size { OnOk result (length self.new.nodes ≡ length self.old.nodes) }
        ensures sent { OnOk result (length self.new.sent ≡ length self.old.sent + length self.old.nodes) }
    {
        for p in 0..self.len() {
            self.post(p as u8)?;
        }
        Ok(())
    }

    /// Node p takes the messages of all others, senders ascending; the first node's has number i.
    fn take_others(&mut self, p: u8, i: usize) -> Result<(), AllocError>
        requires few { length self.old.nodes ≤ 8 }
        requires node { p < length self.old.nodes }
        requires messages { i + length self.old.nodes ≤ length self.old.sent }
        ensures done { OnOk result (self.new ≡ dot_each self.old (takes (length self.old.nodes) i p)) }
        ensures size { OnOk result (length self.new.nodes ≡ length self.old.nodes) }
        ensures sent { OnOk result (length self.new.sent ≡ length self.old.sent) }
    {
        self.messages();
        for q in 0..self.len() {
            if q as u8 != p {
                self.take(p, i + q)?;
            }
        }
        Ok(())
    }

    /// Every node takes the messages of all others, nodes ascending; the first node's has number i.
    fn take_all(&mut self, i: usize) -> Result<(), AllocError>
        requires few { length self.old.nodes ≤ 8 }
        requires messages { i + length self.old.nodes ≤ length self.old.sent }
        ensures { OnOk result (self.new ≡ dot_each self.old (flat_map (takes (length self.old.nodes) i) (range_with_len 0 (length self.old.nodes)))) }
    {
        for p in 0..self.len() {
            self.take_others(p as u8, i)?;
        }
        Ok(())
    }

    /// Every node sends, and then each takes the messages of all others.
    pub(crate) fn sync(&mut self) -> Result<(), AllocError>
        requires { length self.old.nodes ≤ 8 }
        ensures { OnOk result (self.new ≡ dot_each self.old (sync_acts (length self.old.nodes) (length self.old.sent))) }
    {
        let first = self.messages();
        self.post_all()?;
        self.take_all(first)
    }
}
