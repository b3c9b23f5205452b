//! Tests of spies beside a store whose feed publishes.
#![tactic(auto)]

#[cfg(test)]
mod spying;
