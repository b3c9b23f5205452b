//! The mailbox in one thread and in two.

mod alone;
mod letters;
mod together;
