//! An observed-remove set (Shapiro et al. 2011) as its log: which rows came and which of them died, in the order in which that happened.
//!
//! A row is put behind the others where it tells more than they do, so that what a join brought is the end of the log, and a state of the past is a share of its beginning. A table finds a row by its key. Nothing is in order until a pass asks for it.
#![tactic(auto)]

mod any_row;
mod asked;
mod behind;
mod buried;
mod chains;
mod changes;
mod coming;
mod deltas;
mod entry;
mod few;
mod grown;
mod hash;
mod in_order;
mod key;
mod lattice;
mod live;
mod name;
mod near;
mod near_grown;
mod of_grown;
mod of_value;
mod ordered;
mod orset;
mod pass;
mod passes;
mod past;
mod places;
mod reads;
mod row_list;
mod rows;
mod set;
mod shown;
mod shows;
mod standing;
mod table;
mod taking;
mod telling;
mod updates;
mod upkeep;
mod weigh;
mod writes;

pub use deltas::{add_delta, changed};
pub use entry::Entry;
pub use in_order::InOrder;
pub use orset::OrSet;
pub use pass::Pass;
pub use past::Past;
pub use row_list::RowList;
pub use rows::{Rows, TableRow};
pub use set::LogSet;
