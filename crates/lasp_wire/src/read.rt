//! Readers over bytes, one for each field: what stands at the front, with the bytes behind it.

mod elements;
mod groups;
mod message;
mod names;
mod numbers;
mod rows;
mod sequence;
mod sources;
mod states;
mod tokens;
mod values;

pub(crate) use message::{Parts, all_in, magic_in};
pub(crate) use numbers::{u8_in, u64_in};
pub(crate) use sources::sources_in;
