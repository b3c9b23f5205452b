//! Tests of deltas: from one message to a later one, through bytes written by hand from the format, and back into a message; and of runs whose messages travel so.

mod bytes;
mod damaged;
mod runs;
