//! Tests of replica cores and of what they stand on: histories, jobs, and the bytes of messages.
#![tactic(auto)]

#[cfg(test)]
mod bytes;
#[cfg(test)]
mod call;
#[cfg(test)]
mod cores;
#[cfg(test)]
mod desk;
#[cfg(test)]
mod history;
#[cfg(test)]
mod library;
#[cfg(test)]
mod random;
#[cfg(test)]
mod stories;
#[cfg(test)]
mod table;
#[cfg(test)]
mod told;
#[cfg(test)]
mod traits;
#[cfg(test)]
mod work;
#[cfg(test)]
mod wrong;
