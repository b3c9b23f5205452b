//! Messages between replicas, and their bytes.
//!
//! ```text
//! let bytes = encode(alloc, &message)?;
//! let message = decode(alloc, &bytes)?;
//! ```
#![tactic(auto)]

mod counts;
mod decoder;
mod encoder;
mod length;
mod message;
mod places;
mod read;
mod recall;
mod refused;
mod source;
mod write;

pub use counts::Counts;
pub use decoder::decode;
pub use encoder::{encode, put_counts, put_sources};
pub use length::{encoded_len, most_len};
pub use message::Message;
pub use model_wire::WireWhy;
pub use places::{count_at, magic_at, nodes_at, sources_at};
pub use recall::recall_value;
pub use refused::WireRefused;
