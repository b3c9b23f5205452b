//! The replicas, and what they sent.

ghost use Rattle.std.specs.Prelude.{◌≡◌, ◌≤◌, ◌<◌, IfOk, length, replicate, slice_get, Some};
ghost use Rattle.lasp_dots.specs.Prelude.{no_dots, dots_at, dot_start, AreWide};

use crate::DotSet;
use std::alloc::{AllocError, Global};
use std::marker::Model;

/// One set without tombstones for each node, and a copy of each that was sent, by its number. Contracts see the states of both.
#[derive(Drop)]
pub struct DotReplicas {
    pub(crate) nodes: Vec<DotSet>,
    pub(crate) sent: Vec<DotSet>,
}

impl Model for DotReplicas {
    ghost use Rattle.model_dots.specs.DotWorld.{DotWorld};
    ghost use Rattle.lasp_dots.specs.Replicas.{AreWide, coded_world};

    ghost Value = { DotWorld };

    ghost coded = { coded_world };

    ghost view = { λ a. record { nodes = a.nodes.items; sent = a.sent.items } };

    ghost invariant = { λ a. AreWide (record { nodes = a.nodes.items; sent = a.sent.items }) };
}

/// The least set for each of so many nodes.
fn least_sets(alloc: Global, nodes: u8) -> Result<Vec<DotSet>, AllocError>
    requires some { 1 ≤ nodes }
    requires few { nodes ≤ 8 }
    ensures { IfOk result (λ sets. sets.items ≡ replicate nodes (no_dots nodes)) }
{
    let mut sets = Vec::with_capacity(alloc, usize::from(nodes))?;
    for p in 0..nodes {
        sets.push(DotSet::new(alloc, nodes)?)?;
    }
    Ok(sets)
}

impl DotReplicas {
    /// So many replicas, 1 to 8, before the first command.
    pub fn new(alloc: Global, nodes: u8) -> Result<DotReplicas, AllocError>
        requires some { 1 ≤ nodes }
        requires few { nodes ≤ 8 }
        ensures { IfOk result (λ w. w ≡ dot_start nodes) }
    {
        Ok(DotReplicas {
            nodes: least_sets(alloc, nodes)?,
            sent: Vec::new(alloc),
        })
    }

    /// Recalls, at no cost, what all replicas are.
    pub fn recall(&self)
        ensures { AreWide self.now }
    {
        let _nodes = &self.nodes;
    }

    /// The number of nodes.
    pub fn len(&self) -> usize
        ensures { result ≡ length self.now.nodes }
    {
        self.nodes.len()
    }

    /// The set of a node.
    pub fn node(&self, p: usize) -> &DotSet
        requires { p < length self.now.nodes }
        ensures { result.now ≡ dots_at self.now.nodes p }
    {
        &self.nodes[p]
    }

    /// How many messages were sent.
    pub fn messages(&self) -> usize
        ensures { result ≡ length self.now.sent }
    {
        self.sent.len()
    }
}
