//! A sync: every node sends, and then each takes the messages of all others.

ghost use Rattle.std.specs.Prelude.{◌<◌, ◌≤◌, ◌+◌, length, map, flat_map};
ghost use Rattle.lasp_drive.specs.Prelude.{range_with_len, takes, sync_acts, Post, IsReady, Passes};

use crate::driver::Driver;
use crate::halt::Halt;
use crate::node::Node;
use std::alloc::Global;

impl<N: Node> Driver<N> {
    /// Every node sends, nodes ascending.
    fn post_all(&mut self, alloc: Global, c: u32) -> Result<(), Halt>
        requires ready { IsReady N.view N.read c self.old }
        requires number { c ≤ 100000 }
        ensures { Passes N.view N.read N.place c self.old (map Post (range_with_len 0 (length self.old.nodes.items))) result self.new }
    {
        for p in 0..self.nodes.len() {
            match self.post(alloc, c, p as u8) {
                Ok(()) => {}
                Err(halt) => return Err(halt),
            }
        }
        Ok(())
    }

    /// Node p takes the messages of all others, senders ascending; the first node's has number i.
    fn take_others(&mut self, alloc: Global, c: u32, p: u8, i: u32) -> Result<(), Halt>
        requires ready { IsReady N.view N.read c self.old }
        requires node { p < length self.old.nodes.items }
        requires messages { i + length self.old.nodes.items ≤ length self.old.network.sent }
        ensures { Passes N.view N.read N.place c self.old (takes (length self.old.nodes.items) i p) result self.new }
    {
        self.network.len();
        for q in 0..self.nodes.len() {
            if q as u8 != p {
                match self.take(alloc, c, p, i + q as u32) {
                    Ok(()) => {}
                    Err(halt) => return Err(halt),
                }
            }
        }
        Ok(())
    }

    /// Every node takes the messages of all others, nodes ascending; the first node's has number i.
    fn take_all(&mut self, alloc: Global, c: u32, i: u32) -> Result<(), Halt>
        requires ready { IsReady N.view N.read c self.old }
        requires messages { i + length self.old.nodes.items ≤ length self.old.network.sent }
        ensures { Passes N.view N.read N.place c self.old (flat_map (takes (length self.old.nodes.items) i) (range_with_len 0 (length self.old.nodes.items))) result self.new }
    {
        for p in 0..self.nodes.len() {
            match self.take_others(alloc, c, p as u8, i) {
                Ok(()) => {}
                Err(halt) => return Err(halt),
            }
        }
        Ok(())
    }

    /// Every node sends, and then each takes the messages of all others.
    pub fn sync(&mut self, alloc: Global, c: u32) -> Result<(), Halt>
        requires ready { IsReady N.view N.read c self.old }
        requires number { c ≤ 100000 }
        ensures { Passes N.view N.read N.place c self.old (sync_acts (length self.old.nodes.items) (length self.old.network.sent)) result self.new }
    {
        let first = self.network.len() as u32;
        match self.post_all(alloc, c) {
            Ok(()) => self.take_all(alloc, c, first),
            Err(halt) => Err(halt),
        }
    }
}
