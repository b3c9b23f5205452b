//! What a seat at a mailbox's ledger knows.

use std::collections::LinkedList;

/// What was put into a mailbox, as far as one seat knows it. No value of it is made: it stands in proofs alone.
pub struct Witness<E, F> {
    /// It was joined into another one, and counts no longer.
    pub spent: bool,
    /// It is the outlet's.
    pub owner: bool,
    /// The frame of the mailbox; a spent one has none.
    pub frame: Option<F>,
    /// A beginning of what was put, at the outlet all but the last item.
    pub list: LinkedList<E>,
    /// The last item that was put, at the outlet.
    pub next: LinkedList<E>,
    /// Another one was joined in, and the next step tells what the ledger knows of both.
    pub noted: bool,
    /// What is told to be a beginning of this one.
    pub beside: LinkedList<E>,
}
