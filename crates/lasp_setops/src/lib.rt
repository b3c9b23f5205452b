//! The processes over sets: each makes a set of one or two others, by its equation, and follows its inputs by what changed in them.
#![tactic(auto)]

mod counted;
mod filter;
mod fold;
mod increments;
mod laws;
mod listed;
mod map;
mod pairs;
mod refused;
mod row;
mod union;

pub use counted::{filter_counted, map_counted};
pub use filter::filter_set;
pub use fold::{FoldGroup, Modulo, Sum, Xor, fold_all, fold_change, fold_counted, fold_increment};
pub use increments::{
    filter_increment, intersect_increment, map_increment, pair_gain, product_increment,
    union_increment,
};
pub use laws::{processes_follow_any_change, processes_keep_widths};
pub use listed::{filter_rows, map_rows, share_rows, union_rows};
pub use map::map_set;
pub use pairs::{Pairing, intersect_sets, product_sets};
pub use refused::SetRefused;
pub use union::union_sets;
