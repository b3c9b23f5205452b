//! Tests of runs by workers.
#![tactic(auto)]

#[cfg(test)]
mod call;
#[cfg(test)]
mod meeting;
#[cfg(test)]
mod refusal;
#[cfg(test)]
mod rest;
#[cfg(test)]
mod turns;
#[cfg(test)]
mod upstream;
#[cfg(test)]
mod worth;
