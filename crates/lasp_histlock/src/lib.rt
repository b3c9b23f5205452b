//! A lock that counts the history of its value.
//!
//! The value stands for a list of entries that only grows: the history. Each caller has a pass, which knows a beginning of the
//! history and the entries that the caller itself added, and each turn extends what its pass knows. So callers that never meet
//! still know lists of which one begins the other. A call that doesn't wait says why it gave up: a refused `try_take` has counted
//! a miss, an exchange that saw the lock taken. `length` reads the number of entries while others have the turn.
//!
//! ```text
//! let (lock, mut first) = HistLock::new(alloc, value)?;
//! let mut second = lock.split(&mut first)?;           // for another thread
//! let Held { mut value, taken } = lock.take(rt, &mut first);
//! let done = value.add(entry);                         // the value must be given back, also after an error
//! lock.give(&mut first, Held { value, taken });
//! done?;
//! lock.rejoin(&mut first, second);
//! let value = lock.close(first);                       // Some: nobody has the turn
//! ```
//!
//! A turn costs ten atomic steps on two words, whatever the value's size: an exchange, an addition and a store, and seven loads.
//! A miss costs one exchange, `length` one load, `split` and `rejoin` two loads each. Nothing but `new` takes memory. Who waits
//! in `take` tries again and again and lets other threads run in between: there is no queue, and nothing is said of fairness.
//!
//! A pass that is dropped stays out for good, and its entries stay in the history. Dropped in a turn it leaves the lock taken, as
//! does a `Held` that is taken apart and never given back: then nobody gets the value again, and `close` answers `None`.
#![tactic(auto)]

mod content;
mod held;
mod kept;
mod lock;
mod pass;
mod plays;
mod rule;
mod steps;
mod turns;
mod view;

pub use held::Held;
pub use kept::Kept;
pub use lock::HistLock;
pub use pass::Pass;
