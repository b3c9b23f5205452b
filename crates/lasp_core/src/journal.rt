//! The lines of a journal.

ghost use Rattle.std.specs.Prelude.{◌≡◌, ◌+◌, ◌<◌, ◌^◌, ◌++◌, ◌∷◌, [], OnOk, codes, string_bytes};
ghost use Rattle.std.specs.Fmt.{decimal};
ghost use Rattle.model_world.specs.Line.{line_rest};
ghost use Rattle.model_journal.specs.Journal as journal;
ghost use Rattle.model_core.specs.Trace.{updates_with, act_words, entry_line, journal_lines, NamesDeclared};
ghost use Rattle.lasp_replica.specs.Entries.{act_of, entry_of};

use crate::Core;
use lasp_graph::Graph;
use lasp_replica::{Act, Entry};
use model_core::journals_name_declared_variables;
use std::alloc::AllocError;

fn push_word(text: &mut String, word: &str) -> Result<(), AllocError>
    ensures { OnOk result (string_bytes text.new ≡ string_bytes text.old ++ 32 ∷ word.now) }
{
    text.push(' ')?;
    text.push_str(word)
}

fn push_number(text: &mut String, n: u64) -> Result<(), AllocError>
    ensures { OnOk result (string_bytes text.new ≡ string_bytes text.old ++ 32 ∷ decimal n) }
{
    push_word(text, itoa::Buffer::new().format(n))
}

/// Appends two words and a number, and the line's end.
fn push_counted(text: &mut String, word: &str, name: &str, n: u64) -> Result<(), AllocError>
    ensures { OnOk result (string_bytes text.new ≡ string_bytes text.old ++ line_rest (word.now ∷ name.now ∷ decimal n ∷ [])) }
{
    push_word(text, word)?;
    push_word(text, name)?;
    push_number(text, n)?;
    text.push('\n')
}

/// Appends a word and a number, and the line's end.
fn push_numbered(text: &mut String, word: &str, n: u64) -> Result<(), AllocError>
    ensures { OnOk result (string_bytes text.new ≡ string_bytes text.old ++ line_rest (word.now ∷ decimal n ∷ [])) }
{
    push_word(text, word)?;
    push_number(text, n)?;
    text.push('\n')
}

/// Appends two words, and the line's end.
fn push_named(text: &mut String, word: &str, name: &str) -> Result<(), AllocError>
    ensures { OnOk result (string_bytes text.new ≡ string_bytes text.old ++ line_rest (word.now ∷ name.now ∷ [])) }
{
    push_word(text, word)?;
    push_word(text, name)?;
    text.push('\n')
}

/// Appends what was done, and the line's end.
fn push_act(text: &mut String, graph: &Graph, k: u64, act: &Act) -> Result<(), AllocError>
    requires { NamesDeclared graph.now (act_of act.now) }
    ensures { OnOk result (string_bytes text.new ≡ string_bytes text.old ++ line_rest (act_words graph.now k (act_of act.now))) }
{
    match act {
        Act::Update(x, _) => push_counted(text, "update", graph.at(u64::from(*x)).name.as_str(), k),
        Act::Deliver(j, _) => push_numbered(text, "deliver", u64::from(*j)),
        Act::Bind(y, n) => push_counted(text, "bind", graph.at(u64::from(*y)).name.as_str(), *n),
        Act::Extend(decl) => push_named(text, "declare", decl.name.as_str()),
    }
}

/// Appends the line of entry i of node p's journal: the node, the place, its caller, and what was done, some 20 bytes. Of an update it tells k, the node's updates so far, this one among them.
pub fn push_entry(
    text: &mut String,
    graph: &Graph,
    p: u8,
    i: u64,
    k: u64,
    entry: &Entry,
) -> Result<(), AllocError>
    requires { NamesDeclared graph.now (act_of entry.now.what) }
    ensures { OnOk result (string_bytes text.new ≡ string_bytes text.old ++ entry_line graph.now p i k (entry_of entry.now)) }
{
    text.push_str(itoa::Buffer::new().format(p))?;
    push_number(text, i)?;
    push_number(text, entry.by)?;
    push_act(text, graph, k, &entry.what)
}

/// The updates up to an act, where so many came before it.
pub fn updates_with(k: u64, act: &Act) -> u64
    requires { k < 2 ^ 63 }
    ensures { result ≡ updates_with k (act_of act.now) }
{
    match act {
        Act::Update(_, _) => k + 1,
        Act::Deliver(_, _) => k,
        Act::Bind(_, _) => k,
        Act::Extend(_) => k,
    }
}

/// Appends the lines of the journal of node p: one for each entry, some 20 bytes each.
pub fn push_journal(text: &mut String, p: u8, core: &Core) -> Result<(), AllocError>
    ensures { OnOk result (string_bytes text.new ≡ string_bytes text.old ++ journal_lines (journal.graph core.now.frame core.now.entries) p core.now.entries) }
{
    core.recall();
    journals_name_declared_variables();
    let mut updates: u64 = 0;
    for i in 0..core.journal_len() {
        let entry = core.entry_at(i);
        updates = updates_with(updates, &entry.what);
        push_entry(text, core.graph(), p, i, updates, entry)?;
    }
    Ok(())
}
