//! The library: the functions of a program's own that a graph may name.

ghost use Rattle.std.specs.Prelude.{◌≡◌, []};
ghost use Rattle.lasp_fns.specs.Prelude.{maps_of, predicates_of, lifts_of};

mod add;
mod find;

use crate::named::Named;
use crate::stored::{StoredLift, StoredMap, StoredPred};
use std::alloc::Global;

/// The map functions, predicates and lifts that a graph may name. Each kind has names of its own and is numbered in the order in which its functions came.
#[derive(Drop)]
pub struct Library {
    maps: Named<StoredMap>,
    predicates: Named<StoredPred>,
    lifts: Named<StoredLift>,
}

impl Library {
    /// The library of no functions. It takes no memory yet.
    pub fn new(alloc: Global) -> Library
        ensures maps { maps_of result ≡ [] }
        ensures predicates { predicates_of result ≡ [] }
        ensures lifts { lifts_of result ≡ [] }
    {
        Library {
            maps: Named::new(alloc),
            predicates: Named::new(alloc),
            lifts: Named::new(alloc),
        }
    }
}
