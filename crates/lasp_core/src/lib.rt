//! One replica: the journal of all that happened to it, the states that follow from it, jobs for those who evaluate its derived variables, and reads that wait.
//!
//! ```text
//! /// Does one job, if there is one. A job can't be dropped: it is finished or given back.
//! fn do_one(alloc: Global, core: &mut Core, lib: &mut StepLib) -> Result<bool, EvalRefused> {
//!     let Some(mut job) = core.take()? else { return Ok(false) };
//!     match job.evaluate(alloc, lib) {
//!         Ok(state) => match core.finish(0, job, state) {
//!             Ok(released) => Ok(true),                 // the reads that may be polled now
//!             Err((job, _)) => {
//!                 core.give_back(job);
//!                 Err(EvalRefused::Memory)
//!             }
//!         },
//!         Err(refused) => {
//!             core.give_back(job);
//!             Err(refused)
//!         }
//!     }
//! }
//! ```
#![tactic(auto)]

mod jobs;
mod journal;
mod kept;
mod lacking;
mod laws;
mod look;
mod message;
mod news;
mod parked;
mod read;
mod replica_core;
mod tail;
mod upkeep;
mod watched;

pub use jobs::Jobs;
pub use journal::{push_entry, push_journal, updates_with};
pub use kept::{KeptEntry, KeptFrame};
pub use lasp_replica::{Act, DeliverRefused, Entry, NotYet, UpdateRefused, begins};
pub use laws::{
    evaluated_jobs_have_results, jobs_have_the_unread_rows, jobs_stay, reads_stay_open,
    states_are_those_after_the_entries, variables_stay,
};
pub use look::is_met_by;
pub use read::{ReadNo, Released};
pub use replica_core::Core;
pub use watched::{Settle, Try, Watched};
