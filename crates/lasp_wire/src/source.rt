//! One source of a message.

use lasp_state::State;
use lasp_value::Name;

/// A source: its name and what it holds.
#[derive(Drop)]
pub(crate) struct Source {
    pub(crate) name: Name,
    pub(crate) state: State,
}
