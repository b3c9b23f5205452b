//! A sorted list in pieces that several lists share: an equal list costs a share for each piece, and putting an item in or taking some out costs a search and a copy of the pieces that others have.
//!
//! Where an item belongs, the caller tells by a test that the items before it pass (`Edge`).
//!
//! ```text
//! let mut numbers = Pieces::new(alloc);
//! numbers.put(number)?;                        // behind the lesser ones
//! numbers.take_between(&Begin(5), &End(9))?;   // what isn't below 5, up to 9
//! let kept = numbers.share()?;                 // stays as it is when the list changes
//! ```

mod edge;
mod insertion;
mod items;
mod list;
mod piece;
mod removal;
mod search;
mod span;

pub use edge::Edge;
pub use items::Items;
pub use list::Pieces;
