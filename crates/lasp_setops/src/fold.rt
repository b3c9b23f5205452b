//! The number of a fold: the lifts of a set's visible values, each value once, combined by an operation that has inverses.
//! So the number of a set that changed follows from the number before it, at the cost of the values that came or went.

mod asked;
mod change;
mod counted;
mod group;
mod modulo;
mod step;
mod sum;
mod turns;
mod whole;
mod xor;

pub use change::fold_change;
pub use counted::{fold_counted, fold_increment};
pub use group::FoldGroup;
pub use modulo::Modulo;
pub use sum::Sum;
pub use whole::fold_all;
pub use xor::Xor;
