//! The acts that the commands of a script are made of.

mod declare;
mod keep;
mod message;
mod point;
mod show;
mod sync;
mod threshold;
mod update;
