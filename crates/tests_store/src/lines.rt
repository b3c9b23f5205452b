//! The journal of a closed store as lines, beside its entries.

use lasp_core::{Act, Core, push_journal};
use std::alloc::{AllocError, Global};

/// The variables, in order.
const NAMES: [&str; 5] = ["a", "b", "u", "v", "w"];

fn name_of(var: u8) -> &'static str {
    NAMES.get(usize::from(var)).copied().unwrap_or("none")
}

/// Appends the line of an entry, up to which there are so many updates.
fn push_line(
    out: &mut String,
    place: u64,
    by: u64,
    updates: u64,
    act: &Act,
) -> Result<(), AllocError> {
    write!(out, "0 {place} {by} ")?;
    match act {
        Act::Update(var, _) => writeln!(out, "update {} {updates}", name_of(*var)),
        Act::Deliver(number, _) => writeln!(out, "deliver {number}"),
        Act::Bind(var, n) => writeln!(out, "bind {} {n}", name_of(*var)),
        Act::Extend(decl) => writeln!(out, "declare {}", decl.name.as_str()),
    }
}

/// The entries of a core, each as its line has to be.
fn wanted(alloc: Global, core: &Core) -> Result<String, AllocError> {
    let mut out = String::new(alloc);
    let mut updates: u64 = 0;
    for place in 0..core.journal_len() {
        let entry = core.entry_at(place);
        if let Act::Update(_, _) = &entry.what {
            updates = updates.saturating_add(1);
        }
        push_line(&mut out, place, entry.by, updates, &entry.what)?;
    }
    Ok(out)
}

/// Whether the lines of a core's journal have its entries, one by one.
pub fn are_its_entries(alloc: Global, core: &Core) -> Result<bool, AllocError> {
    let mut lines = String::new(alloc);
    push_journal(&mut lines, 0, core)?;
    Ok(lines.as_str() == wanted(alloc, core)?.as_str())
}
