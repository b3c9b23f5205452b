//! The text of nodes that ran beside each other, from their cores and their diaries.

ghost use Rattle.std.specs.Prelude.{◌≡◌, ◌+◌, ◌<◌, ◌≤◌, ◌++◌, ◌∷◌, [], IfOk, OnOk, codes, length, map, string_bytes};
ghost use Rattle.std.specs.Fmt.{decimal};
ghost use Rattle.model_live.specs.Lived as lived;
ghost use Rattle.model_live.specs.Lived.{stories_lines};
ghost use Rattle.model_graph.specs.Graph.{name_at};
ghost use Rattle.model_live.specs.Story.{notes_at};
ghost use Rattle.model_world.specs.Line.{known_line, line};
ghost use Rattle.model_world.specs.Report.{known_lines};
ghost use Rattle.lasp_state.specs.State.{shown_state};
ghost use Rattle.lasp_live.specs.Diary.{AreTold, IsTold, note_of, notes_of, story_of};
ghost use Rattle.lasp_live.specs.Prelude.{live_text};
ghost use Rattle.lasp_live.specs.Texts.{AreLeft, AreTellable, IsTellable, peer_in, stories_of};

use crate::diary::{Diary, Note, Noted};
use lasp_core::{Core, push_entry, updates_with};
use lasp_drive::{push_counts, push_state};
use lasp_graph::Graph;
use lasp_state::State;
use model_core::journals_name_declared_variables;
use std::alloc::{AllocError, Global};

/// Appends a word behind a space.
fn push_word(text: &mut String, word: &str) -> Result<(), AllocError>
    ensures { OnOk result (string_bytes text.new ≡ string_bytes text.old ++ 32 ∷ word.now) }
{
    text.push(' ')?;
    text.push_str(word)
}

/// Appends the line of a send of node p.
fn push_send(text: &mut String, p: u8, place: u64) -> Result<(), AllocError>
    ensures { OnOk result (string_bytes text.new ≡ string_bytes text.old ++ line (decimal p ∷ codes "send" ∷ decimal place ∷ [])) }
{
    text.push_str(itoa::Buffer::new().format(p))?;
    push_word(text, "send")?;
    push_word(text, itoa::Buffer::new().format(place))?;
    text.push('\n')
}

/// Appends a name and what is shown under it, and the line's end.
fn push_shown(text: &mut String, name: &str, state: &State) -> Result<(), AllocError>
    ensures { OnOk result (string_bytes text.new ≡ string_bytes text.old ++ 32 ∷ (name.now ++ 32 ∷ (shown_state state.now ++ 10 ∷ []))) }
{
    push_word(text, name)?;
    push_state(text, state)
}

/// Appends the line of a print of node p.
fn push_print(
    text: &mut String,
    graph: &Graph,
    p: u8,
    place: u64,
    x: u8,
    state: &State,
) -> Result<(), AllocError>
    requires { x < length graph.now }
    ensures { OnOk result (string_bytes text.new ≡ string_bytes text.old ++ line (decimal p ∷ codes "print" ∷ decimal place ∷ name_at graph.now x ∷ shown_state state.now ∷ [])) }
{
    text.push_str(itoa::Buffer::new().format(p))?;
    push_word(text, "print")?;
    push_word(text, itoa::Buffer::new().format(place))?;
    push_shown(text, graph.at(u64::from(x)).name.as_str(), state)
}

/// Appends the line of a note of node p, whose core this is.
fn push_note(
    text: &mut String,
    graph: &Graph,
    p: u8,
    core: &Core,
    note: &Note,
) -> Result<(), AllocError>
    requires opening { core.now.frame.opening ≡ graph.now }
    requires told { IsTold core.now.frame core.now.entries note.now.place note.now.what }
    ensures { OnOk result (string_bytes text.new ≡ string_bytes text.old ++ lived.note_line graph.now core.now.frame core.now.entries p (note_of note.now)) }
{
    let _ = core;
    match &note.what {
        Noted::Send(_) => push_send(text, p, note.place),
        Noted::Print(x, state) => push_print(text, graph, p, note.place, *x, state),
    }
}

/// Appends the lines of the notes of a place, the first of which is this one, and tells which is the first behind them.
#[tactic(auto, using(crate::proofs::TextLaws::tellings))]
fn push_notes(
    text: &mut String,
    graph: &Graph,
    p: u8,
    core: &Core,
    diary: &Diary,
    from: u64,
    place: u64,
) -> Result<u64, AllocError>
    requires opening { core.now.frame.opening ≡ graph.now }
    requires told { AreTold core.now.frame core.now.entries diary.now.notes.items }
    requires left { AreLeft place (length core.now.entries) from (notes_of diary.now) }
    ensures left { IfOk result (λ n. AreLeft (place + 1) (length core.now.entries) n (notes_of diary.now)) }
    ensures lines { OnOk result (string_bytes text.new ≡ string_bytes text.old ++ lived.note_lines graph.now core.now.frame core.now.entries p (notes_at place (notes_of diary.now))) }
{
    let mut n = from;
    while n < diary.len() && diary.at(n).place == place {
        push_note(text, graph, p, core, diary.at(n))?;
        n += 1;
    }
    Ok(n)
}

/// Appends the lines of node p's story: before each entry's line those of what was noted before it came.
fn push_story(
    text: &mut String,
    graph: &Graph,
    nodes: u8,
    p: u8,
    core: &Core,
    diary: &Diary,
) -> Result<(), AllocError>
    requires { IsTellable graph.now nodes p core.now diary.now }
    ensures { OnOk result (string_bytes text.new ≡ string_bytes text.old ++ lived.story_lines graph.now nodes p (story_of core.now.entries diary.now)) }
{
    core.recall();
    journals_name_declared_variables();
    let _ = nodes;
    let mut next = 0;
    let mut updates = 0;
    for i in 0..core.journal_len() {
        next = push_notes(text, graph, p, core, diary, next, i)?;
        let entry = core.entry_at(i);
        updates = updates_with(updates, &entry.what);
        push_entry(text, graph, p, i, updates, entry)?;
    }
    push_notes(text, graph, p, core, diary, next, core.journal_len())?;
    Ok(())
}

/// Appends the line of what a node knows.
fn push_known(text: &mut String, p: u8, counts: &[u64]) -> Result<(), AllocError>
    ensures { OnOk result (string_bytes text.new ≡ string_bytes text.old ++ known_line p counts.now) }
{
    text.push_str("known ")?;
    text.push_str(itoa::Buffer::new().format(p))?;
    push_counts(text, counts)
}

/// Appends the stories of all nodes, node by node.
fn push_stories(
    text: &mut String,
    graph: &Graph,
    cores: &[Core],
    diaries: &[Diary],
) -> Result<(), AllocError>
    requires few { length cores.now ≤ 8 }
    requires told { AreTellable graph.now (length cores.now) cores.now diaries.now }
    ensures { OnOk result (string_bytes text.new ≡ string_bytes text.old ++ stories_lines graph.now (length cores.now) 0 (stories_of cores.now diaries.now)) }
{
    let nodes = cores.len() as u8;
    for p in 0..cores.len() {
        push_story(text, graph, nodes, p as u8, &cores[p], &diaries[p])?;
    }
    Ok(())
}

/// Appends the lines of what the nodes know, node by node.
fn push_all_known(text: &mut String, cores: &[Core]) -> Result<(), AllocError>
    requires { length cores.now ≤ 8 }
    ensures { OnOk result (string_bytes text.new ≡ string_bytes text.old ++ known_lines 0 (map peer_in cores.now)) }
{
    for p in 0..cores.len() {
        push_known(text, p as u8, cores[p].counts().as_slice())?;
    }
    Ok(())
}

/// The text of all nodes: their stories, node by node, and then what each knows.
#[tactic(auto, using(crate::proofs::TextLaws::texts))]
pub fn live_text(
    alloc: Global,
    graph: &Graph,
    cores: &[Core],
    diaries: &[Diary],
) -> Result<String, AllocError>
    requires few { length cores.now ≤ 8 }
    requires told { AreTellable graph.now (length cores.now) cores.now diaries.now }
    ensures { IfOk result (λ text. string_bytes text ≡ live_text graph.now (length cores.now) (stories_of cores.now diaries.now)) }
{
    let mut text = String::new(alloc);
    push_stories(&mut text, graph, cores, diaries)?;
    push_all_known(&mut text, cores)?;
    Ok(text)
}
