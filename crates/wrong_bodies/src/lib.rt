//! Public calls once more, each with the clauses of its contract that a wrong body is tried against. The body is the call itself, so the check proves that
//! the call's contract implies the clauses; each edit in `must-fail/` puts a wrong body in its place, and what the clauses refuse the call's contract refuses too.
//!
//! A file stands for a layer. A clause has the name that it has at the call; conditions are the call's.
#![tactic(auto)]

mod cores;
mod functions;
mod graphs;
mod messages;
mod networks;
mod program;
mod runs;
mod scripts;
mod sets;
mod states;
mod values;

pub use cores::{check_settled, poll, settle};
pub use functions::{call_map, find_map};
pub use graphs::{evaluate, graph_of, map_counted};
pub use messages::message_of;
pub use networks::{receive, send};
pub use program::run;
pub use runs::{advance, run_on, run_through};
pub use scripts::script_of;
pub use sets::{count_more, image, join, put_row, remove, union};
pub use states::{delta, is_reached};
pub use values::{name_of, text_of, value_of};
