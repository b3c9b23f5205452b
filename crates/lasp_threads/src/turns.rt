//! Who is at which variable, so that no two workers do the same, nor what would have to be done again.

use crate::worth::Worth;
use lasp_graph::Graph;
use lasp_workers::Gate;
use std::alloc::Global;
use std::sync::atomic::{AtomicU64, Ordering};

/// How many variables a node may have.
const VARIABLES: u8 = 64;

/// How often workers are kept out of a variable before one is let in beside who is there.
const PATIENCE: u64 = 2_048;

/// Who is where. Threads share it.
#[derive(Drop)]
pub(crate) struct Visits {
    /// Of each variable of each node, whether a worker is there: 0 where none is, else 1 and how often others asked since.
    asked: Vec<AtomicU64>,
    /// Of each variable of the graph, itself and those from which it follows, as bits; 0 of one that isn't known yet.
    above: Vec<AtomicU64>,
}

/// A gate around another one, which lets one worker at a time to a variable, and none while another is at a variable from which it follows: what comes of that would have to be taken in, too. Where a worker stays for long, the others wait no more. The gate within is asked by who has its turn. It changes when a job is done, and never what comes of it.
#[derive(Drop)]
pub(crate) struct Turns<'a, G> {
    pub(crate) gate: &'a G,
    pub(crate) visits: &'a Visits,
    pub(crate) worth: &'a Worth,
}

/// A variable as a bit.
fn bit(var: u8) -> u64 {
    1u64.wrapping_shl(u32::from(var))
}

/// So many words of zeros, or fewer where memory is short.
fn zeros(alloc: Global, many: usize) -> Vec<AtomicU64> {
    let mut words = Vec::new(alloc);
    for _ in 0..many {
        if words.push(AtomicU64::new(0)).is_err() {
            break;
        }
    }
    words
}

impl Visits {
    /// Nobody is anywhere. Where memory is short, nobody is kept out of the variables of the last nodes.
    pub(crate) fn new(alloc: Global, nodes: u8) -> Visits {
        Visits {
            asked: zeros(alloc, usize::from(VARIABLES) * usize::from(nodes)),
            above: zeros(alloc, usize::from(VARIABLES)),
        }
    }

    /// Notes which variable follows from which.
    pub(crate) fn learn(&self, graph: &Graph) {
        for y in 0..graph.len() {
            let bits = match graph.at(y).kind.inputs() {
                Some((first, second)) => self.above(first) | self.above(second),
                None => 0,
            };
            if let Some(above) = self.above.get(y as usize) {
                above.store(bits | bit(y as u8), Ordering::SeqCst);
            }
        }
    }

    /// The bits of a variable and of those from which it follows; of one that isn't known, its own.
    fn above(&self, var: u8) -> u64 {
        match self.above.get(usize::from(var)) {
            Some(above) => above.load(Ordering::SeqCst) | bit(var),
            None => bit(var),
        }
    }

    fn at(&self, node: u8, var: u8) -> Option<&AtomicU64> {
        self.asked.get(usize::from(VARIABLES) * usize::from(node) + usize::from(var))
    }

    /// Whether a worker is at the variable, for whom there is patience still.
    fn is_taken(&self, node: u8, var: u8) -> bool {
        match self.at(node, var) {
            Some(asked) => {
                let many = asked.load(Ordering::SeqCst);
                let is_taken = 0 < many && many < PATIENCE;
                if is_taken {
                    // (who was there may have left since, and then nobody is counted)
                    let _ = asked.compare_exchange(
                        many,
                        many + 1,
                        Ordering::SeqCst,
                        Ordering::SeqCst,
                    );
                }
                is_taken
            }
            None => false,
        }
    }

    /// Whether a worker is at the variable, or at one from which it follows.
    fn is_busy(&self, node: u8, var: u8) -> bool {
        let above = self.above(var);
        for x in 0..VARIABLES {
            if above & bit(x) != 0 && self.is_taken(node, x) {
                return true;
            }
        }
        false
    }

    /// A worker goes to the variable, unless another was faster.
    fn begin(&self, node: u8, var: u8) -> bool {
        match self.at(node, var) {
            Some(asked) => {
                let many = asked.swap(1, Ordering::SeqCst);
                many == 0 || PATIENCE <= many
            }
            None => true,
        }
    }

    /// The worker at the variable is through.
    fn end(&self, node: u8, var: u8) {
        if let Some(asked) = self.at(node, var) {
            asked.store(0, Ordering::SeqCst);
        }
    }
}

impl<G: Gate> Gate for Turns<'_, G> {
    fn pass(&self, worker: u32, node: u8, var: u8) {
        self.gate.pass(worker, node, var);
    }

    fn admits(&self, worker: u32, node: u8, var: u8) -> bool {
        if self.visits.is_busy(node, var) || !self.visits.begin(node, var) {
            return false;
        }
        let is_admitted = self.gate.admits(worker, node, var);
        if is_admitted {
            self.worth.begin();
        } else {
            self.visits.end(node, var);
        }
        is_admitted
    }

    fn leaves(&self, worker: u32, node: u8, var: u8) {
        self.gate.leaves(worker, node, var);
        self.worth.end();
        self.visits.end(node, var);
    }

    fn keeps_out(&self, worker: u32, node: u8, var: u8) -> bool {
        self.visits.is_busy(node, var) || self.gate.keeps_out(worker, node, var)
    }
}
