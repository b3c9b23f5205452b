//! How functions come into a library.

ghost use Rattle.std.specs.Prelude.{◌≡◌, ◌↔◌, ◌<◌, ◌++◌, ◌∷◌, [], Err, OnOk, OnErr, IsTrue, length, false};
ghost use Rattle.lasp_fns.specs.Prelude.{is_name, is_named, ops_of, conditions_of, lift_of, maps_of, predicates_of, lifts_of};

use super::Library;
use crate::refused::LibraryRefused;
use crate::stored::{StoredLift, StoredMap, StoredPred};

impl Library {
    /// Adds a map function under a name that no other map function of the library has. A function that is refused is dropped.
    pub fn add_map(&mut self, name: &str, f: StoredMap) -> Result<(), LibraryRefused>
        requires room { length (maps_of self.old) < 4294967295 }
        ensures shape { (result ≡ Err LibraryRefused.NameShape) ↔ (is_name name.now ≡ false) }
        ensures taken { (result ≡ Err LibraryRefused.NameTaken) ↔ (IsTrue (is_name name.now) × IsTrue (is_named name.now (maps_of self.old))) }
        ensures ok { OnOk result (maps_of self.new ≡ maps_of self.old ++ (name.now, ops_of f) ∷ []) }
        ensures err { OnErr result (maps_of self.new ≡ maps_of self.old) }
        ensures predicates { predicates_of self.new ≡ predicates_of self.old }
        ensures lifts { lifts_of self.new ≡ lifts_of self.old }
    {
        self.maps.add(name, f)
    }

    /// Adds a predicate under a name that no other predicate of the library has. A function that is refused is dropped.
    pub fn add_pred(&mut self, name: &str, f: StoredPred) -> Result<(), LibraryRefused>
        requires room { length (predicates_of self.old) < 4294967295 }
        ensures shape { (result ≡ Err LibraryRefused.NameShape) ↔ (is_name name.now ≡ false) }
        ensures taken { (result ≡ Err LibraryRefused.NameTaken) ↔ (IsTrue (is_name name.now) × IsTrue (is_named name.now (predicates_of self.old))) }
        ensures ok { OnOk result (predicates_of self.new ≡ predicates_of self.old ++ (name.now, conditions_of f) ∷ []) }
        ensures err { OnErr result (predicates_of self.new ≡ predicates_of self.old) }
        ensures maps { maps_of self.new ≡ maps_of self.old }
        ensures lifts { lifts_of self.new ≡ lifts_of self.old }
    {
        self.predicates.add(name, f)
    }

    /// Adds a lift under a name that no other lift of the library has. A function that is refused is dropped.
    pub fn add_lift(&mut self, name: &str, f: StoredLift) -> Result<(), LibraryRefused>
        requires room { length (lifts_of self.old) < 4294967295 }
        ensures shape { (result ≡ Err LibraryRefused.NameShape) ↔ (is_name name.now ≡ false) }
        ensures taken { (result ≡ Err LibraryRefused.NameTaken) ↔ (IsTrue (is_name name.now) × IsTrue (is_named name.now (lifts_of self.old))) }
        ensures ok { OnOk result (lifts_of self.new ≡ lifts_of self.old ++ (name.now, lift_of f) ∷ []) }
        ensures err { OnErr result (lifts_of self.new ≡ lifts_of self.old) }
        ensures maps { maps_of self.new ≡ maps_of self.old }
        ensures predicates { predicates_of self.new ≡ predicates_of self.old }
    {
        self.lifts.add(name, f)
    }
}
