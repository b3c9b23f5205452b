//! Which types threads may be given, and may share. There is nothing to run here: `proofs/` has for each type that it `Send`s and is `Sync`, and a proof that hands one to another thread cites it.
#![tactic(auto)]
