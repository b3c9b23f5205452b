//! Tests of sets without tombstones: what their calls do, and many worlds beside sets with tombstones.
#![tactic(auto)]

#[cfg(test)]
mod beside;
#[cfg(test)]
mod calls;
#[cfg(test)]
mod dice;
#[cfg(test)]
mod mail;
#[cfg(test)]
mod many;
#[cfg(test)]
mod worlds;
#[cfg(test)]
mod wrong;
