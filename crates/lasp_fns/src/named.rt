//! Functions of one kind under their names.

ghost use Rattle.std.specs.Prelude.{◌≤◌, length};

mod calls;

use indexmap::IndexMap;

/// The most functions of a kind that a library holds.
pub(crate) const MOST: usize = 4_294_967_295;

/// Functions under names of which no two are the same, in the order in which they came.
#[derive(Drop)]
pub(crate) struct Named<F> {
    entries: IndexMap<String, F>,
    ghost few: { length entries.entries ≤ 4294967295 },
}
