//! The usual spellings of JSON, read straight from the bytes: texts without escapes, integers in decimal, and arrays.
//!
//! Each call takes the bytes that are left and gives what stands in front of them, with the bytes behind it, or nothing where that isn't in a usual
//! spelling. What a call gives is what JSON has there; where it gives nothing, nothing is said. A caller reads `["add", 7]` by
//!
//! ```text
//! let rest = after_open(bytes)?;
//! let (word, rest) = take_text(rest)?;
//! let (number, rest) = take_number(after_comma(rest)?)?;
//! let rest = after_close(rest)?;
//! ```
#![tactic(auto)]

mod gap;
mod number;
mod sign;
mod text;
mod tree;
mod whole;

pub use gap::after_gap;
pub use number::take_number;
pub use sign::{after_close, after_comma, after_open, is_over};
pub use text::take_text;
pub use tree::take_tree;
pub use whole::usual_tree;
