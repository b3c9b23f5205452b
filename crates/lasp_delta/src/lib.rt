//! Deltas: what changed between two messages of one sender, what that makes of another message, and its bytes; in `run/` scripts whose messages travel so.
//!
//! ```text
//! let bytes = encode_delta(alloc, &delta_of(alloc, &sent_before, &sent_now)?)?;
//! let delta = decode_delta(alloc, &bytes)?;
//! if delta.suits(&mine) { let more = apply(alloc, &mine, &delta)?; }
//! ```
#![tactic(auto)]

mod application;
mod changed;
mod decoder;
mod delta;
mod difference;
mod encoder;
mod refused;
mod run;
mod since;
mod source;

pub use application::apply;
pub use decoder::decode_delta;
pub use delta::Delta;
pub use difference::{delta_of, is_before};
pub use encoder::encode_delta;
pub use refused::DeltaRefused;
pub use run::{DeltaRun, Letter, deltas_on};
pub use since::delta_since;
