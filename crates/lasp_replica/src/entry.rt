//! What a replica writes down of everything that happens to it.

use lasp_graph::Decl;
use lasp_state::Op;
use lasp_wire::Message;
use std::sync::Arc;

/// What happened.
#[derive(Drop)]
pub enum Act {
    /// A source was updated: the variable and the operation.
    Update(u8, Op),
    /// A message was joined in: its number among those sent, and the message.
    Deliver(u32, Arc<Message>),
    /// A derived variable took in its process on the states after the first so many entries: the variable and this number.
    Bind(u8, u64),
    /// A variable was declared.
    Extend(Decl),
}

/// What happened, and who made it happen.
#[derive(Drop)]
pub struct Entry {
    /// The caller's number.
    pub by: u64,
    /// What happened.
    pub what: Act,
}
