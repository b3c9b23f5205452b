//! The program over any files and outputs, with the functions that its graphs may name. `main` calls it as
//!
//! ```text
//! let status = answer_call(rt, alloc, &words, &mut files, &mut out, &mut err, &NoGate)?;
//! ```
#![tactic(auto)]

mod answer;
mod call;
mod functions;
mod library;
mod operations;
mod words;

pub use answer::answer_words;
pub use call::{answer_call, texts_of};
pub use functions::{Condition, LIFTS, MAPS, PREDICATES};
pub use library::{add_lift, add_map, add_predicate};
pub use operations::{conditions_of, steps_of};
pub use words::words_after_name;
