//! Versions of a replica's states, as they are published for readers that never wait: definitions alone. There is nothing to run here.
#![tactic(auto)]
