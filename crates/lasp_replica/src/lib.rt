//! A replica: its journal, and beside it the states that follow from it, their histories, and what each process last read. What it keeps stays what the journal says, call by call.
//!
//! A call asks for all its memory first and then changes, so that a refusal leaves the replica as it was. `lasp_core` adds the reads that wait, and is what callers use.
#![tactic(auto)]

mod entry;
mod given_up;
mod growth;
mod history;
mod job;
mod kept;
mod laws;
mod parts;
mod process;
mod reading;
mod refused;
mod replica;
mod sources;
mod unread;

pub use entry::{Act, Entry};
pub use given_up::GivenUp;
pub use history::History;
pub use job::Job;
pub use kept::{binds_are_kept, declarations_are_kept, deliveries_are_kept, updates_are_kept};
pub use laws::{histories_follow_the_journal, histories_tell_rows_since};
pub use parts::JobParts;
pub use process::Process;
pub use reading::{bases_tell_what_is_clean, histories_tell_what_changed, news_are_what_is_gained};
pub use refused::{DeliverRefused, NotYet, UpdateRefused};
pub use replica::Replica;
pub use sources::begins;
pub use unread::Unread;
