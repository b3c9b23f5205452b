//! The node: a core, settled between the acts of a run.

ghost use Rattle.std.specs.Prelude.{◌≡◌, ◌≤◌, IfOk, IfSome, length};
ghost use Rattle.std.specs.Coded.{Coded-set, Π_prop, coded_ℕ};
ghost use Rattle.model_journal.specs.Entry.{Frame};
ghost use Rattle.lasp_core.specs.Reads.{read_of};
ghost use Rattle.lasp_node.specs.Settling.{IsIdle};
ghost use Rattle.lasp_node.specs.Prelude.{IsTailOf, entries_sent, node_of};

use super::settling::settle;
use lasp_core::{Core, DeliverRefused, ReadNo, UpdateRefused};
use lasp_drive::{FreshNode, Letter, Node, NodeStop, Tail};
use lasp_fns::{Library, StepLib};
use lasp_graph::Graph;
use lasp_state::{Op, State, Threshold};
use lasp_wire::{Counts, Message};
use std::alloc::{AllocError, Global};
use std::sync::Arc;

/// When a node last sent.
#[derive(Clone, Copy, Drop)]
pub struct LastSent {
    /// The number of its message.
    pub number: u32,
    /// How many entries its journal had then.
    pub entries: u64,
}

/// A node that keeps a replica core and evaluates changed rows alone.
#[derive(Drop)]
pub struct CoreNode {
    core: Core,
    sent: Option<LastSent>,
    ghost idle: { IsIdle core.busy } by { Π_prop (λ y. Coded-set coded_ℕ _ _) },
    ghost early: { entries_sent sent ≤ length core.entries },
}

impl CoreNode {
    /// What came since it last sent, if it ever did.
    fn tail(&self, alloc: Global) -> Result<Option<Tail>, AllocError>
        ensures { IfOk result (λ tail. IfSome tail (IsTailOf (node_of self.now.core self.now.sent))) }
    {
        match &self.sent {
            None => Ok(None),
            Some(last) => {
                self.core.recall();
                let rows = self.core.tail_since(alloc, last.entries)?;
                Ok(Some(Tail {
                    before: last.number,
                    rows: Arc::new(alloc, rows)?,
                }))
            }
        }
    }
}

impl Node for CoreNode {
    type Read = ReadNo;

    ghost view = { λ n. node_of n.core n.sent };

    ghost Place = { Frame };

    ghost place = { λ n. n.core.frame };

    ghost read = { read_of };

    fn recall(&self) {
        self.core.recall();
        self.core.recall_states();
    }

    fn update(&mut self, _alloc: Global, x: u8, op: &Op, is_known: bool) -> Result<(), NodeStop> {
        self.core.recall();
        match self.core.update_with(0, x, op, is_known) {
            Ok(_) => {
                self.core.recall();
                Ok(())
            }
            Err(UpdateRefused::TooManyRows) => Err(NodeStop::TooLarge(x)),
            Err(UpdateRefused::Memory) => Err(NodeStop::Memory),
            Err(_) => unreachable!(),
        }
    }

    fn source(&mut self, x: u8) -> Result<Arc<State>, AllocError> {
        self.core.recall();
        Arc::try_clone(self.core.state(x))
    }

    fn message(&mut self, alloc: Global) -> Result<Message, AllocError> {
        self.core.recall();
        self.core.message(alloc)
    }

    fn letter(&mut self, alloc: Global, i: u32) -> Result<Letter, AllocError> {
        self.core.recall();
        let whole = self.core.message(alloc)?;
        let tail = self.tail(alloc)?;
        self.sent = Some(LastSent {
            number: i,
            entries: self.core.journal_len(),
        });
        Ok(Letter { whole, tail })
    }

    fn deliver(
        &mut self,
        _alloc: Global,
        i: u32,
        m: &Arc<Message>,
        part: &Message,
    ) -> Result<(), NodeStop> {
        self.core.recall();
        match self.core.deliver_part(0, i, m, part) {
            Ok(_) => {
                self.core.recall();
                Ok(())
            }
            Err(DeliverRefused::TooManyRows(x)) => Err(NodeStop::TooLarge(x)),
            Err(DeliverRefused::Memory) => Err(NodeStop::Memory),
            Err(DeliverRefused::WrongGraph) => unreachable!(),
        }
    }

    fn extend(&mut self, _alloc: Global, graph: &Arc<Graph>) -> Result<(), AllocError> {
        self.core.recall();
        let extended = self.core.extend(0, graph.at(graph.len() - 1));
        self.core.recall();
        extended
    }

    fn settle(&mut self, alloc: Global, lib: &Library) -> Result<(), NodeStop> {
        self.core.recall();
        let settled = settle(alloc, &mut self.core, &mut StepLib::new(lib));
        self.core.recall();
        settled
    }

    fn state(&mut self, x: u8) -> Result<Arc<State>, AllocError> {
        self.core.recall();
        self.core.order_rows(x);
        Arc::try_clone(self.core.state(x))
    }

    fn open_read(
        &mut self,
        _alloc: Global,
        x: u8,
        threshold: Threshold,
    ) -> Result<ReadNo, AllocError> {
        self.core.recall();
        self.core.open_read(x, threshold)
    }

    fn poll_read(&mut self, r: &ReadNo) -> Result<Option<Arc<State>>, AllocError> {
        self.core.recall();
        self.core.poll_read(r)
    }

    fn close_read(&mut self, r: &ReadNo) {
        self.core.recall();
        self.core.close_read(r);
    }

    fn reached(
        &mut self,
        _alloc: Global,
        x: u8,
        threshold: Threshold,
        is_known: bool,
    ) -> Result<bool, AllocError> {
        self.core.recall();
        Ok(self.core.look(x, &threshold, is_known))
    }

    fn counts(&mut self, alloc: Global) -> Result<Counts, AllocError> {
        self.core.recall();
        Counts::from_slice(alloc, self.core.counts().as_slice())
    }

    fn has_counted(&self, counts: &Counts) -> bool {
        counts.is_at_most(self.core.counts())
    }
}

impl FreshNode for CoreNode {
    fn new(
        alloc: Global,
        graph: &Arc<Graph>,
        replica: u8,
        nodes: u8,
    ) -> Result<CoreNode, AllocError> {
        let share = Arc::try_clone(graph)?;
        Ok(CoreNode {
            core: Core::new(alloc, share, replica, nodes)?,
            sent: None,
        })
    }
}
