//! Writers of bytes, one for each field. Each appends; after want of memory a part may have been appended.

mod numbers;
mod rows;
mod sources;
mod states;
mod values;

pub(crate) use numbers::{put_u8, put_u64};
pub(crate) use rows::is_first;
pub(crate) use sources::put_sources;
