//! A replica that several threads change: a replica core behind a lock that counts its history.
//!
//! One feed updates the replica, joins messages in and declares variables; any number of hands take jobs and hand their results in. Each call is one turn: the pass takes the core out, calls it, and gives it back, so each is answered at one point of one growing journal, and the pass then knows the journal up to there. States leave a turn as shares, so they are compared and evaluated while others have the core.
//!
//! ```text
//! let (store, mut feed) = Store::new(alloc, graph, 0, 2)?;
//! let hand = store.split_hand(&mut feed)?;
//! // one thread: store.update(rt, &mut feed, var, &op)?;
//! // another: Seated::new(&store, hand, rt) is a `Jobs`, for a worker; `into_hand` gives the hand back
//! store.rejoin(&mut feed, hand);
//! let core = store.close(feed);                        // Some: nobody has the core
//! ```
//!
//! A call whose name begins with `try_` never waits: it answers `Try::Busy` where the core is in another's hands, and has then changed nothing but the count of misses.
#![tactic(auto)]

mod feed;
mod hand;
mod kept;
mod laws;
mod letter;
mod message;
mod ordered;
mod reads;
mod seated;
mod settle;
mod shelves;
#[cfg(test)]
mod spied;
mod store;
#[cfg(test)]
mod tests;
mod turn;

pub use kept::KeptCore;
pub use laws::{feeds_tell_the_graph, feeds_tell_the_sources, shelves_stay, turns_go_on};
pub use letter::Sent;
pub use seated::Seated;
pub use store::{Feed, Hand, Store};
