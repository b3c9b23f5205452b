//! The program as one call: it reads its words' files, runs the script or joins the messages, writes the text and answers the status.
#![tactic(auto)]

mod check;
mod deltas;
mod dots;
mod form;
mod merge;
mod name;
mod open;
mod program;
mod run;

pub use form::read_form;
pub use open::{Opened, open_run};
pub use program::one_thread;
pub use run::failure_of;
