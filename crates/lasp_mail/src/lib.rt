//! A mailbox of one sender and one receiver, which may be in two threads.
//!
//! The sender puts items in through its outlet, the receiver takes them out through its inlet. Contracts see an outlet as the list
//! of what it put and an inlet as the list of what it took. Each item says its place in that list, so the receiver knows at once
//! that nothing was lost before it and nothing came twice; that the item is the very one that was put there is told where the
//! mailbox is closed, with both ends in hand: what was taken is a beginning of what was put.
//!
//! ```text
//! let (mailbox, mut outlet, mut inlet) = Mailbox::new(alloc, &like)?;    // the ends may go to other threads
//! mailbox.put(rt, &mut outlet, Item { number: 0, body })?;               // refused for want of memory alone: the item comes back
//! let item = mailbox.take(rt, &mut inlet);                               // None: there was nothing
//! let closed = mailbox.close(outlet, inlet);                             // `got` begins `put`
//! ```
//!
//! All bodies of a mailbox have one frame, plain data that their type tells ([`Framed`]), and so has what is taken.
//!
//! A mailbox is a queue of `crossbeam_queue`, in blocks of 31 items: one item in 31 asks for memory. To put an item costs one atomic
//! load more than the queue does, to take one two, whatever was put before. `put` and `take` wait for nothing but a step of the
//! other end that has begun; to wait for an item is the caller's. Where a mailbox is let go without being closed, what nobody took
//! is dropped with it.
#![tactic(auto)]

mod closed;
mod ends;
mod framed;
mod item;
mod ledger;
mod line;
mod mailbox;
mod parcel;
mod place;
mod plays;
mod steps;
mod witness;

pub use closed::Closed;
pub use ends::{Inlet, Outlet};
pub use framed::Framed;
pub use item::Item;
pub use mailbox::Mailbox;
