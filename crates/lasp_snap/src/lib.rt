//! Readers that never wait: a shelf publishes versions of a replica's states, and spies in other threads look at them.
//!
//! Who has the shelf publishes; who has a spy takes the version that was published last, without a lock and without a handle to wait by. What a spy sees goes on from what it saw before, and from all that it was told of.
//!
//! ```text
//! let (mut shelf, mut spies) = Shelf::new(rt, alloc, first, 1)?;
//! let mut spy = spies.take_spy();                      // may go to another thread
//! shelf.push(rt, version)?;                            // later than the last one
//! let told = shelf.tell()?;                            // may go to another thread, too
//! spy.learn(told);
//! let state = spy.peek(var)?;                          // of this version or a later one, where `looks` rose
//! shelf.close(rt);
//! ```
//!
//! Two things keep what is known. The two copies of `left_right` have the rule that what each reader saw is a beginning of what was published: so what one spy sees only grows, and a version that was refused is seen by nobody. What a shelf tells can't be brought into that rule more than once for each reader, so it is told by a log that grows beside it: each version that is shown carries the log up to its own offer, and so does what is told. Both are tokens without bytes, which a reader may copy and compare, and one of two is always a beginning of the other. A spy compares their lengths and leaves alone what is older than what it was told; no reading that comes after the telling is.
#![tactic(auto)]

mod entry;
mod front;
mod journal;
mod name;
mod rule;
mod shelf;
mod shown;
mod spies;
mod spy;
mod told;
mod version;

pub use shelf::Shelf;
pub use spies::Spies;
pub use spy::Spy;
pub use told::Told;
pub use version::Version;
