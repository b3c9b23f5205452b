//! Which of the listed forms the words have.

ghost use Rattle.std.specs.Prelude.{◌≡◌, ◌<◌, ℕ, length};
ghost use Rattle.lasp_run.specs.Prelude.{words_of, form, export_form, workers_word, with_workers, load_form, threaded_form, Run, Trace, Live, Load};

use lasp_call::{node_word, number_in};
use model_program::{Form, Threaded};

/// The greatest seed of `load`.
const MOST_SEED: u32 = 2_147_483_647;

/// The most commands that `load` makes.
const MOST_COMMANDS: u32 = 20_000;

fn export_form(node: Option<u8>) -> Form
    ensures { result ≡ export_form node }
{
    match node {
        Some(node) => Form::Export(node),
        None => Form::Wrong,
    }
}

/// A number of workers, 1 to 16.
fn workers_word(word: &str) -> Option<u8>
    ensures { result ≡ workers_word word.now }
{
    match number_in(word, 1, 16) {
        Some(workers) => Some(workers as u8),
        None => None,
    }
}

fn run_form(workers: Option<u8>) -> Form
    ensures { result ≡ with_workers Run workers }
{
    match workers {
        Some(workers) => Form::Threaded(Threaded::Run(workers)),
        None => Form::Wrong,
    }
}

fn trace_form(workers: Option<u8>) -> Form
    ensures { result ≡ with_workers Trace workers }
{
    match workers {
        Some(workers) => Form::Threaded(Threaded::Trace(workers)),
        None => Form::Wrong,
    }
}

fn live_form(workers: Option<u8>) -> Form
    ensures { result ≡ with_workers Live workers }
{
    match workers {
        Some(workers) => Form::Threaded(Threaded::Live(workers)),
        None => Form::Wrong,
    }
}

fn load_form(seed: Option<u32>, count: Option<u32>, workers: Option<u8>) -> Form
    ensures { result ≡ load_form seed count workers }
{
    match (seed, count, workers) {
        (Some(seed), Some(count), Some(workers)) => {
            Form::Threaded(Threaded::Load(seed, count, workers))
        }
        (_, _, _) => Form::Wrong,
    }
}

/// The form of four words, where it is one for several threads.
#[tactic(auto, unfolding(model_program::specs::Program::threaded_form))]
fn threaded_form(words: &[String]) -> Form
    requires { length words.now ≡ 4 }
    ensures { result ≡ threaded_form (words_of words.now) }
{
    let workers = workers_word(words[3].as_str());
    if words[0].as_str() == "run" {
        return run_form(workers);
    }
    if words[0].as_str() == "trace" {
        return trace_form(workers);
    }
    if words[0].as_str() == "live" {
        return live_form(workers);
    }
    if words[0].as_str() == "load" {
        return load_form(
            number_in(words[1].as_str(), 0, MOST_SEED),
            number_in(words[2].as_str(), 1, MOST_COMMANDS),
            workers,
        );
    }
    Form::Wrong
}

/// The form of the words. It names the files that there are words for.
#[tactic(auto, unfolding(model_program::specs::Program::form))]
pub fn read_form(words: &[String]) -> Form
    ensures exact { result ≡ form (words_of words.now) }
    ensures plain { result ≡ Form.Plain → 2 < length words.now }
    ensures delta { result ≡ Form.Delta → 2 < length words.now }
    ensures check { result ≡ Form.Check → 1 < length words.now }
    ensures dots { result ≡ Form.Dots → 1 < length words.now }
    ensures export { (node : ℕ) → result ≡ Form.Export node → 2 < length words.now }
    ensures merge { result ≡ Form.Merge → 2 < length words.now }
    ensures few { result ≡ Form.Merge → length words.now < 11 }
{
    if words.len() == 3 && words[0].as_str() == "plain" {
        return Form::Plain;
    }
    if words.len() == 2 && words[0].as_str() == "check" {
        return Form::Check;
    }
    if words.len() == 2 && words[0].as_str() == "dots" {
        return Form::Dots;
    }
    if words.len() == 4 && words[0].as_str() == "export" {
        return export_form(node_word(words[3].as_str()));
    }
    if 2 < words.len() && words.len() < 11 && words[0].as_str() == "merge" {
        return Form::Merge;
    }
    if words.len() == 4 {
        return threaded_form(words);
    }
    if words.len() == 3 && words[0].as_str() == "delta" {
        return Form::Delta;
    }
    Form::Wrong
}
