//! What stands behind a log in another one that begins as it does.

ghost use Rattle.std.specs.Prelude.{◌≡◌, ◌++◌, ◌∷◌, IfSome, IsTrue};

use super::changes::Changes;
use super::entry::Entry;
use lasp_log::Items;

/// The rows behind those of a log in one that begins by them, and none where it begins otherwise. It costs a comparison for each row of the log, up to the first that differs, and takes no memory.
pub(crate) fn rest_behind<'a>(log: &Changes, other: &'a Changes) -> Option<Items<'a, Entry>>
    ensures { IfSome result (λ rest. other.now.items ≡ log.now.items ++ rest) }
{
    if log.len() > other.len() {
        return None;
    }
    let mut left = log.iter();
    let mut rest = other.iter();
    while let Some(entry) = left.next() {
        if !goes_on_by(&mut rest, entry) {
            return None;
        }
    }
    Some(rest)
}

/// Takes the next row of a pass, and tells whether it is this one.
fn goes_on_by(rest: &mut Items<'_, Entry>, entry: &Entry) -> bool
    ensures { IsTrue result → rest.old ≡ entry.now ∷ rest.new }
{
    match rest.next() {
        Some(row) => is_same(row, entry),
        None => false,
    }
}

/// Whether two rows have one key, and both are dead or both live.
fn is_same(row: &Entry, other: &Entry) -> bool
    ensures { IsTrue result → row.now ≡ other.now }
{
    if row.is_dead() != other.is_dead() {
        return false;
    }
    *row.name() == *other.name()
}
