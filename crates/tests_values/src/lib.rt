//! Tests of values, of joins, of logs, of sources, of spellings, of files and outputs, of the lock and of the mailbox.
#![tactic(auto)]

#[cfg(test)]
mod counters;
#[cfg(test)]
mod edge;
#[cfg(test)]
mod histlock;
#[cfg(test)]
mod log;
#[cfg(test)]
mod mail;
#[cfg(test)]
mod sets;
#[cfg(test)]
mod spelling;
#[cfg(test)]
mod taking;
#[cfg(test)]
mod value;
