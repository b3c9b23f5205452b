//! The one line on `err`. No memory is taken, and a fault there changes no status.

ghost use Rattle.std.specs.Prelude.{◌≡◌, ◌≤◌, ◌∷◌, [], map, codes};
ghost use Rattle.lasp_call.specs.Prelude.{decimal, words_of, line, graph_why_text, script_why_text, wire_why_text, state_why_text, refusal_words, line_of, Tells, writing_of};

use crate::ending::line::put_line;
use crate::words::word;
use itoa::Buffer;
use lasp_edge::Sink;
use model_program::{Failure, Refusal, StateWhy};
use model_readings::GraphWhy;
use model_scripts::ScriptWhy;
use model_wire::WireWhy;

fn graph_why(why: GraphWhy) -> &'static [u8]
    ensures { result.now ≡ graph_why_text why }
{
    match why {
        GraphWhy::NotJson => b"NotJson",
        GraphWhy::Shape => b"Shape",
        GraphWhy::NameShape => b"NameShape",
        GraphWhy::NameTaken => b"NameTaken",
        GraphWhy::UnknownInput => b"UnknownInput",
        GraphWhy::WrongKind => b"WrongKind",
        GraphWhy::UnknownFunction => b"UnknownFunction",
        GraphWhy::TooWide => b"TooWide",
        GraphWhy::TooMany => b"TooMany",
    }
}

fn script_why(why: ScriptWhy) -> &'static [u8]
    ensures { result.now ≡ script_why_text why }
{
    match why {
        ScriptWhy::NotJson => b"NotJson",
        ScriptWhy::Shape => b"Shape",
        ScriptWhy::NoSuchNode => b"NoSuchNode",
        ScriptWhy::UnknownVar => b"UnknownVar",
        ScriptWhy::WrongOp => b"WrongOp",
        ScriptWhy::ValueRefused => b"ValueRefused",
        ScriptWhy::NotSent => b"NotSent",
        ScriptWhy::UnknownMark => b"UnknownMark",
        ScriptWhy::TooMany => b"TooMany",
        ScriptWhy::MarkTaken => b"MarkTaken",
        ScriptWhy::NameShape => b"NameShape",
        ScriptWhy::NameTaken => b"NameTaken",
        ScriptWhy::UnknownInput => b"UnknownInput",
        ScriptWhy::WrongKind => b"WrongKind",
        ScriptWhy::UnknownFunction => b"UnknownFunction",
        ScriptWhy::TooWide => b"TooWide",
    }
}

fn wire_why(why: WireWhy) -> &'static [u8]
    ensures { result.now ≡ wire_why_text why }
{
    match why {
        WireWhy::Short => b"Short",
        WireWhy::Magic => b"Magic",
        WireWhy::Kind => b"Kind",
        WireWhy::Order => b"Order",
        WireWhy::Text => b"Text",
        WireWhy::Range => b"Range",
        WireWhy::Rest => b"Rest",
    }
}

fn state_why(why: StateWhy) -> &'static [u8]
    ensures { result.now ≡ state_why_text why }
{
    match why {
        StateWhy::Wire(why) => wire_why(why),
        StateWhy::WrongGraph => b"WrongGraph",
    }
}

/// Writes one line of words.
pub fn tell<E: Sink>(err: &mut E, first: &[u8], rest: &[&[u8]])
    ensures later { E.faults err.old ≤ E.faults err.new }
    ensures told { Tells (writing_of E.written E.faults err.old err.new) (line (first.now ∷ map (λ w. w.now) rest.now)) }
{
    let _ = put_line(err, first, rest);
}

fn tell_number<E: Sink>(err: &mut E, first: &[u8], number: u32)
    ensures later { E.faults err.old ≤ E.faults err.new }
    ensures told { Tells (writing_of E.written E.faults err.old err.new) (line (first.now ∷ decimal number ∷ [])) }
{
    let mut digits = Buffer::new();
    tell(err, first, &[digits.format(number).as_bytes()]);
}

fn tell_state<E: Sink>(err: &mut E, name: &[u8], place: u64, why: &[u8])
    ensures later { E.faults err.old ≤ E.faults err.new }
    ensures told { Tells (writing_of E.written E.faults err.old err.new) (line (codes "state" ∷ name.now ∷ decimal place ∷ why.now ∷ [])) }
{
    let mut digits = Buffer::new();
    tell(err, b"state", &[name, digits.format(place).as_bytes(), why]);
}

/// Writes the line of a refusal.
pub fn tell_refusal<E: Sink>(words: &[String], refusal: &Refusal, err: &mut E)
    ensures later { E.faults err.old ≤ E.faults err.new }
    ensures told { Tells (writing_of E.written E.faults err.old err.new) (line (refusal_words (words_of words.now) refusal.now)) }
{
    let mut first = Buffer::new();
    let mut second = Buffer::new();
    match refusal {
        Refusal::Usage => tell(err, b"usage", &[]),
        Refusal::TooLong(file) => tell(err, b"too long", &[word(words, *file), b"16777216"]),
        Refusal::Graph(number, why) => tell(
            err,
            b"graph",
            &[first.format(*number).as_bytes(), graph_why(*why)],
        ),
        Refusal::Script(number, why) => tell(
            err,
            b"script",
            &[first.format(*number).as_bytes(), script_why(*why)],
        ),
        Refusal::NotDots(command) => tell(
            err,
            b"script",
            &[first.format(*command).as_bytes(), b"NotDots"],
        ),
        Refusal::NotLive(command) => tell(
            err,
            b"script",
            &[first.format(*command).as_bytes(), b"NotLive"],
        ),
        Refusal::TooLarge(command, node, name) => tell(
            err,
            b"too large",
            &[
                first.format(*command).as_bytes(),
                second.format(*node).as_bytes(),
                name.as_str().as_bytes(),
            ],
        ),
        Refusal::NetworkFull(command) => tell_number(err, b"network full", *command),
        Refusal::NotReached(command) => tell_number(err, b"not reached", *command),
        Refusal::State(file, place, why) => {
            tell_state(err, word(words, *file), *place, state_why(*why))
        }
    }
}

/// Writes the line of a failure.
pub fn tell_failure<E: Sink>(words: &[String], failure: &Failure, err: &mut E)
    ensures later { E.faults err.old ≤ E.faults err.new }
    ensures told { Tells (writing_of E.written E.faults err.old err.new) (line_of (words_of words.now) failure.now) }
{
    match failure {
        Failure::Refused(refusal) => tell_refusal(words, refusal, err),
        Failure::ReadFault(file) => tell(err, b"read fault", &[word(words, *file)]),
        Failure::Memory => tell(err, b"out of memory", &[]),
    }
}
