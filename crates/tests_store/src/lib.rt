//! Tests of stores: of one thread, and of a feed beside hands in threads of their own; and of which types threads may be given, and may share.
#![tactic(auto)]

#[cfg(test)]
mod alone;
#[cfg(test)]
mod asking;
#[cfg(test)]
mod crossing;
#[cfg(test)]
mod desk;
#[cfg(test)]
mod ended;
#[cfg(test)]
mod feeding;
#[cfg(test)]
mod joined;
#[cfg(test)]
mod lines;
#[cfg(test)]
mod meeting;
#[cfg(test)]
mod seated;
#[cfg(test)]
mod short;
#[cfg(test)]
mod together;
#[cfg(test)]
mod told;
#[cfg(test)]
mod working;
#[cfg(test)]
mod wrong;
