//! Functions that a program hands in: each is kept beside the operations whose meaning it has, and found by its name in a library.
#![tactic(auto)]

mod library;
mod lift;
mod map;
mod named;
mod predicate;
mod refused;
mod steps;
mod stored;

pub use library::Library;
pub use lift::{LiftOp, apply_lift};
pub use map::{MapOp, MapOps, apply_map};
pub use predicate::{PredOp, PredOps, apply_pred};
pub use refused::LibraryRefused;
pub use steps::StepLib;
pub use stored::{LiftFn, MapFn, PredFn, StoredLift, StoredMap, StoredPred};
