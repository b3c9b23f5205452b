//! `check`: what a graph's variables are, as a text.

ghost use Rattle.std.specs.Prelude.{◌≡◌, ◌<◌, ◌++◌, ◌∷◌, [], length, OnOk, IfOk, Ok, string_bytes};
ghost use Rattle.lasp_run.specs.Prelude.{decimal, widths, width_at, line, kind_word, check_line, check_text, Gives, Follows, checking, AreUnchanged, AreLater, seen, kind_of, decl_of, library_of, words_of, answered};

use crate::open::open_graph;
use lasp_edge::Files;
use lasp_fns::Library;
use lasp_graph::{Decl, Graph, Kind};
use model_program::Failure;
use std::alloc::{AllocError, Global};

/// The word of a kind, as a graph has it.
fn kind_word(kind: &Kind) -> &'static str
    ensures { result.now ≡ kind_word (kind_of kind.now) }
{
    match kind {
        Kind::OrSet => "orset",
        Kind::GSet => "gset",
        Kind::Counter => "counter",
        Kind::MaxReg => "maxreg",
        Kind::Union(_, _) => "union",
        Kind::Product(_, _) => "product",
        Kind::Intersection(_, _) => "intersection",
        Kind::Map(_, _) => "map",
        Kind::Filter(_, _) => "filter",
        Kind::Fold(_, _, _) => "fold",
    }
}

/// Appends the line of a variable: its name, its kind's word and its width.
fn push_variable(text: &mut String, decl: &Decl, width: u8) -> Result<(), AllocError>
    ensures { OnOk result (string_bytes text.new ≡ string_bytes text.old ++ check_line (decl_of decl.now) width) }
{
    text.push_str(decl.name.as_str())?;
    text.push(' ')?;
    text.push_str(kind_word(&decl.kind))?;
    text.push(' ')?;
    text.push_str(itoa::Buffer::new().format(width))?;
    text.push('\n')
}

/// A line for each variable of a graph.
#[tactic(auto, using(crate::proofs::CheckLaws::checking))]
fn graph_text(alloc: Global, graph: &Graph) -> Result<Vec<u8>, AllocError>
    ensures { IfOk result (λ text. text.items ≡ check_text graph.now) }
{
    let mut text = String::new(alloc);
    for var in 0..graph.len() {
        push_variable(&mut text, graph.at(var), graph.width(var as u8))?;
    }
    Ok(text.into_bytes())
}

fn text_of(alloc: Global, graph: &Graph) -> Result<Vec<u8>, Failure>
    ensures { Gives (λ text. text.items) (Ok (check_text graph.now)) result }
{
    match graph_text(alloc, graph) {
        Ok(text) => Ok(text),
        Err(_) => Err(Failure::Memory),
    }
}

/// `check`: reads the graph, and tells what its variables are.
pub(crate) fn run_check<F: Files>(
    alloc: Global,
    words: &[String],
    files: &mut F,
    lib: &Library,
) -> Result<Vec<u8>, Failure>
    requires { 1 < length words.now }
    ensures same { AreUnchanged F.content files.old files.new }
    ensures later { AreLater F.faults files.old files.new }
    ensures follows { Follows (words_of words.now) (seen F.content F.faults files.old files.new) (checking (library_of lib.now)) (answered result) }
{
    match open_graph(alloc, words, files, lib) {
        Ok(graph) => text_of(alloc, &graph),
        Err(failure) => Err(failure),
    }
}
