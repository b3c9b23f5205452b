//! The lock in one thread and in several.

mod alone;
mod callers;
mod notes;
mod together;
