//! Workers: each takes jobs of its replicas, evaluates them while others may have the replicas, and hands the results in.
//!
//! ```text
//! let mut replicas = Replicas::new(alloc);
//! replicas.push(0, Seated::new(&store, hand, rt))?;       // a refused push hands the seated hand back
//! let mut steps = StepLib::new(&lib);
//! let finished = work(rt, alloc, 1, &mut replicas, &mut steps, &NoGate, &more)?;
//! // each variable is clean at what its replica's list has, or can't be evaluated
//! while let Some((node, seated)) = replicas.pop() { .. }  // the hands come back
//! ```
#![tactic(auto)]

mod ask;
mod gate;
mod job;
mod replicas;
mod round;
mod worker;

pub use gate::{Gate, NoGate};
pub use replicas::Replicas;
pub use worker::work;
