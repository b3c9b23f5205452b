//! Tests of stored functions, of set operations and folds, of states and of graphs.
#![tactic(auto)]

#[cfg(test)]
mod called;
#[cfg(test)]
mod fold;
#[cfg(test)]
mod graph;
#[cfg(test)]
mod made;
#[cfg(test)]
mod setops;
#[cfg(test)]
mod state;
#[cfg(test)]
mod stored;
