//! The forms of a declaration: what stands where, before any name is looked up.

ghost use Rattle.std.specs.Prelude.{◌≡◌, option_map, is_some, codes};
ghost use Rattle.lasp_graph.specs.Prelude.{view, text_at, two, form_of, written_of, source_form, names_of, modulo_by, modulo_of, fold_form, form_view, written_view};
ghost use Rattle.model_readings.specs.Graph.{fold_op_of};
ghost use Rattle.lasp_graph.specs.Kind as kinds;

use super::kind::FoldOp;
use super::tree::{has_items, is_word_at, number_at, text_at};
use serde_json::Value as Json;

/// The greatest number that a modulo may be by.
const MODULO_LIMIT: u64 = 4_294_967_295;

/// The form of a declaration behind its name, with the names of inputs and functions.
#[derive(Clone, Copy)]
pub(crate) enum Form<'a> {
    OrSet,
    GSet,
    Counter,
    MaxReg,
    Union(&'a str, &'a str),
    Product(&'a str, &'a str),
    Intersection(&'a str, &'a str),
    Map(&'a str, &'a str),
    Filter(&'a str, &'a str),
    Fold(&'a str, FoldOp, &'a str),
}

/// A declaration as it is written.
#[derive(Clone, Copy)]
pub(crate) struct Written<'a> {
    pub name: &'a str,
    pub form: Form<'a>,
}

/// Whether a tree has the form of a declaration, whatever its names name.
pub fn is_declaration(j: &Json) -> bool
    ensures { result ≡ is_some (written_of (view j.now)) }
{
    written_of(j).is_some()
}

/// The declaration that a tree is the form of.
#[tactic(auto, unfolding(model_readings::specs::Graph::written_of))]
pub(crate) fn written_of(j: &Json) -> Option<Written<'_>>
    ensures { option_map written_view result ≡ written_of (view j.now) }
{
    let name = text_at(j, 0)?;
    let form = form_of(j)?;
    Some(Written { name, form })
}

#[tactic(auto, unfolding(model_readings::specs::Graph::form_of))]
fn form_of(j: &Json) -> Option<Form<'_>>
    ensures { option_map form_view result ≡ form_of (view j.now) }
{
    if is_word_at(j, 1, "orset") {
        source(j, Form::OrSet)
    } else if is_word_at(j, 1, "gset") {
        source(j, Form::GSet)
    } else if is_word_at(j, 1, "counter") {
        source(j, Form::Counter)
    } else if is_word_at(j, 1, "maxreg") {
        source(j, Form::MaxReg)
    } else if is_word_at(j, 1, "union") {
        let (x, y) = names(j)?;
        Some(Form::Union(x, y))
    } else if is_word_at(j, 1, "product") {
        let (x, y) = names(j)?;
        Some(Form::Product(x, y))
    } else if is_word_at(j, 1, "intersection") {
        let (x, y) = names(j)?;
        Some(Form::Intersection(x, y))
    } else if is_word_at(j, 1, "map") {
        let (x, f) = names(j)?;
        Some(Form::Map(x, f))
    } else if is_word_at(j, 1, "filter") {
        let (x, p) = names(j)?;
        Some(Form::Filter(x, p))
    } else if is_word_at(j, 1, "fold") {
        fold(j)
    } else {
        None
    }
}

/// The form of a source, where nothing stands behind its word.
fn source<'a>(j: &Json, form: Form<'a>) -> Option<Form<'a>>
    ensures { option_map form_view result ≡ source_form (form_view form.entry) (view j.now) }
{
    if has_items(j, 2) { Some(form) } else { None }
}

/// The two names behind the word of a process.
#[tactic(auto, unfolding(model_readings::specs::Graph::names_of))]
fn names(j: &Json) -> Option<(&str, &str)>
    ensures { option_map (λ p. (p.0.now, p.1.now)) result ≡ names_of (view j.now) }
{
    if !has_items(j, 4) {
        return None;
    }
    let x = text_at(j, 2)?;
    let y = text_at(j, 3)?;
    Some((x, y))
}

/// The input, the operation and the lift behind the word of a fold.
#[tactic(auto, unfolding(model_readings::specs::Graph::fold_form))]
fn fold(j: &Json) -> Option<Form<'_>>
    ensures { option_map form_view result ≡ fold_form (view j.now) }
{
    if !has_items(j, 5) {
        return None;
    }
    let x = text_at(j, 2)?;
    let op = fold_op_of(j)?;
    let l = text_at(j, 4)?;
    Some(Form::Fold(x, op, l))
}

/// The operation of a fold, which stands behind its input.
#[tactic(auto, unfolding(model_readings::specs::Graph::fold_op_of))]
fn fold_op_of(j: &Json) -> Option<FoldOp>
    ensures { option_map kinds.fold_op_of result ≡ fold_op_of (view j.now) }
{
    if is_word_at(j, 3, "sum") {
        Some(FoldOp::Sum)
    } else if is_word_at(j, 3, "xor") {
        Some(FoldOp::Xor)
    } else {
        modulo_of(j.get(3)?)
    }
}

/// A modulo: its word and its number.
#[tactic(auto, unfolding(model_readings::specs::Graph::modulo_of))]
fn modulo_of(j: &Json) -> Option<FoldOp>
    ensures { option_map kinds.fold_op_of result ≡ modulo_of (view j.now) }
{
    if !has_items(j, 2) || !is_word_at(j, 0, "modulo") {
        return None;
    }
    let n = number_at(j, 1)?.as_u64()?;
    modulo_by(n)
}

fn modulo_by(n: u64) -> Option<FoldOp>
    ensures { option_map kinds.fold_op_of result ≡ modulo_by n }
{
    if n >= 1 && n <= MODULO_LIMIT {
        Some(FoldOp::Modulo(n as u32))
    } else {
        None
    }
}
