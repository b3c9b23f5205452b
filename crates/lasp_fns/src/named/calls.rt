//! How functions are added and found.

ghost use Rattle.std.specs.Prelude.{◌≡◌, ◌↔◌, ◌<◌, ◌++◌, ◌∷◌, [], Err, OnOk, OnErr, IsTrue, length, false, option_copied};
ghost use Rattle.lasp_fns.specs.Prelude.{is_name, is_named, place_named, item_at, named_of};

use super::Named;
use crate::refused::LibraryRefused;
use indexmap::IndexMap;
use lasp_value::Name;
use std::alloc::Global;

impl<F: Drop> Named<F> {
    /// No functions. It takes no memory yet.
    pub(crate) fn new(alloc: Global) -> Named<F>
        ensures { named_of result ≡ [] }
    {
        Named {
            entries: IndexMap::new(alloc),
        }
    }

    /// Appends a function, unless its name is out of shape, or else taken.
    pub(crate) fn add(&mut self, name: &str, f: F) -> Result<(), LibraryRefused>
        requires room { length (named_of self.old) < 4294967295 }
        ensures shape { (result ≡ Err LibraryRefused.NameShape) ↔ (is_name name.now ≡ false) }
        ensures taken { (result ≡ Err LibraryRefused.NameTaken) ↔ (IsTrue (is_name name.now) × IsTrue (is_named name.now (named_of self.old))) }
        ensures ok { OnOk result (named_of self.new ≡ named_of self.old ++ (name.now, f) ∷ []) }
        ensures err { OnErr result (named_of self.new ≡ named_of self.old) }
    {
        if !Name::is_shape(name) {
            return Err(LibraryRefused::NameShape);
        }
        if self.entries.contains_key(name) {
            return Err(LibraryRefused::NameTaken);
        }
        let key = String::from_str(*self.entries.allocator(), name)?;
        self.entries.insert(key, f)?;
        Ok(())
    }

    /// The place of the function with this name, by one look-up.
    pub(crate) fn find(&self, name: &str) -> Option<u32>
        ensures { result ≡ place_named name.now (named_of self.now) }
    {
        match self.entries.get_index_of(name) {
            Some(place) => Some(place as u32),
            None => None,
        }
    }

    /// The function at a place, counted from 0.
    pub(crate) fn at(&self, i: u32) -> Option<&F>
        ensures { option_copied result ≡ item_at (named_of self.now) i }
    {
        match self.entries.get_index(i as usize) {
            Some((_, f)) => Some(f),
            None => None,
        }
    }
}
