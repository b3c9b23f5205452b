//! A sync by deltas: every node sends, and then each takes the messages of all others.

ghost use Rattle.std.specs.Prelude.{◌<◌, ◌≤◌, ◌+◌, length, map, flat_map};
ghost use Rattle.std.specs.List.{range_with_len};
ghost use Rattle.model_world.specs.World.{Post, takes, sync_acts};
ghost use Rattle.lasp_delta.specs.Seen.{delta_seen, IsUnderWay};
ghost use Rattle.lasp_delta.specs.Acts.{Goes};

use crate::run::deltas::DeltaRun;
use lasp_drive::{Halt, Node};
use std::alloc::Global;

impl<N: Node> DeltaRun<N> {
    /// Every node sends, nodes ascending.
    fn post_all(&mut self, alloc: Global, c: u32) -> Result<(), Halt>
        requires under_way { IsUnderWay c (delta_seen N.view N.read self.old) }
        requires number { c ≤ 100000 }
        ensures { Goes c c (delta_seen N.view N.read self.old) (map Post (range_with_len 0 (length self.old.driver.nodes.items))) result (delta_seen N.view N.read self.new) }
    {
        for p in 0..self.driver.nodes.len() {
            match self.post(alloc, c, p as u8) {
                Ok(()) => {}
                Err(halt) => return Err(halt),
            }
        }
        Ok(())
    }

    /// Node p takes the messages of all others, senders ascending; the first node's has number i.
    fn take_others(&mut self, alloc: Global, c: u32, p: u8, i: u32) -> Result<(), Halt>
        requires under_way { IsUnderWay c (delta_seen N.view N.read self.old) }
        requires number { c ≤ 100000 }
        requires node { p < length self.old.driver.nodes.items }
        requires messages { i + length self.old.driver.nodes.items ≤ length self.old.driver.network.sent }
        ensures { Goes c c (delta_seen N.view N.read self.old) (takes (length self.old.driver.nodes.items) i p) result (delta_seen N.view N.read self.new) }
    {
        self.driver.network.len();
        for q in 0..self.driver.nodes.len() {
            if q as u8 != p {
                match self.take(alloc, c, p, i + q as u32) {
                    Ok(()) => {}
                    Err(halt) => return Err(halt),
                }
            }
        }
        Ok(())
    }

    /// Every node takes the messages of all others, nodes ascending; the first node's has number i.
    fn take_all(&mut self, alloc: Global, c: u32, i: u32) -> Result<(), Halt>
        requires under_way { IsUnderWay c (delta_seen N.view N.read self.old) }
        requires number { c ≤ 100000 }
        requires messages { i + length self.old.driver.nodes.items ≤ length self.old.driver.network.sent }
        ensures { Goes c c (delta_seen N.view N.read self.old) (flat_map (takes (length self.old.driver.nodes.items) i) (range_with_len 0 (length self.old.driver.nodes.items))) result (delta_seen N.view N.read self.new) }
    {
        for p in 0..self.driver.nodes.len() {
            match self.take_others(alloc, c, p as u8, i) {
                Ok(()) => {}
                Err(halt) => return Err(halt),
            }
        }
        Ok(())
    }

    /// Every node sends, and then each takes the messages of all others.
    pub(crate) fn sync(&mut self, alloc: Global, c: u32) -> Result<(), Halt>
        requires under_way { IsUnderWay c (delta_seen N.view N.read self.old) }
        requires number { c ≤ 100000 }
        ensures { Goes c c (delta_seen N.view N.read self.old) (sync_acts (length self.old.driver.nodes.items) (length self.old.driver.network.sent)) result (delta_seen N.view N.read self.new) }
    {
        let first = self.driver.network.len() as u32;
        match self.post_all(alloc, c) {
            Ok(()) => self.take_all(alloc, c, first),
            Err(halt) => Err(halt),
        }
    }
}
