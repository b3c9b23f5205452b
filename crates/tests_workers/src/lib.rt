//! Tests of workers and of reads that wait, over cores.
#![tactic(auto)]

#[cfg(test)]
mod cores;
#[cfg(test)]
mod library;
#[cfg(test)]
mod reads;
#[cfg(test)]
mod wakes;
#[cfg(test)]
mod workers;
#[cfg(test)]
mod wrong;
