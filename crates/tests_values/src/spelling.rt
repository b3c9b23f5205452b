//! Tests of usual spellings: that they are taken, and that what is taken is read as JSON reads it.

mod damage;
mod reading;
mod usual;
