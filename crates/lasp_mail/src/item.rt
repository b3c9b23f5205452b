//! What goes through a mailbox.

/// A body, and its place among all that is put into its mailbox, counted from 0.
#[derive(Drop)]
pub struct Item<T> {
    pub number: u64,
    pub body: T,
}
