//! Lines of words on a sink. No memory is taken.

ghost use Rattle.std.specs.Prelude.{◌≡◌, ◌≤◌, ◌∷◌, [], List, ℕ, map, ◌++◌, OnOk, OnErr};
ghost use Rattle.lasp_call.specs.Prelude.{Rose, Appends, AppendsPrefix, line, line_rest};

use lasp_edge::{Failed, Sink};

/// Writes two pieces, the second where the first was written whole.
#[tactic(auto, using(crate::proofs::TellLaws::appending))]
fn put_both<S: Sink>(sink: &mut S, first: &[u8], second: &[u8]) -> Result<(), Failed>
    ensures later { S.faults sink.old ≤ S.faults sink.new }
    ensures ok { OnOk result (Appends (S.written sink.old) (first.now ++ second.now) (S.written sink.new)) }
    ensures part { OnErr result (AppendsPrefix (S.written sink.old) (first.now ++ second.now) (S.written sink.new)) }
    ensures failed { OnErr result (Rose (S.faults sink.old) (S.faults sink.new)) }
{
    match sink.put(first) {
        Ok(()) => sink.put(second),
        Err(failed) => Err(failed),
    }
}

/// Writes each word after a space, and the line's end.
#[tactic(auto, using(crate::proofs::TellLaws::appending))]
fn put_rest<S: Sink>(sink: &mut S, words: &[&[u8]]) -> Result<(), Failed>
    ensures later { S.faults sink.old ≤ S.faults sink.new }
    ensures ok { OnOk result (Appends (S.written sink.old) (line_rest (map (λ w. w.now) words.now)) (S.written sink.new)) }
    ensures part { OnErr result (AppendsPrefix (S.written sink.old) (line_rest (map (λ w. w.now) words.now)) (S.written sink.new)) }
    ensures failed { OnErr result (Rose (S.faults sink.old) (S.faults sink.new)) }
{
    match words.split_first() {
        None => sink.put(b"\n"),
        Some((word, others)) => match put_both(sink, b" ", word) {
            Ok(()) => put_rest(sink, others),
            Err(failed) => Err(failed),
        },
    }
}

/// Writes a line of words, separated by one space each.
#[tactic(auto, using(crate::proofs::TellLaws::appending))]
pub(crate) fn put_line<S: Sink>(sink: &mut S, first: &[u8], rest: &[&[u8]]) -> Result<(), Failed>
    ensures later { S.faults sink.old ≤ S.faults sink.new }
    ensures ok { OnOk result (Appends (S.written sink.old) (line (first.now ∷ map (λ w. w.now) rest.now)) (S.written sink.new)) }
    ensures part { OnErr result (AppendsPrefix (S.written sink.old) (line (first.now ∷ map (λ w. w.now) rest.now)) (S.written sink.new)) }
    ensures failed { OnErr result (Rose (S.faults sink.old) (S.faults sink.new)) }
{
    match sink.put(first) {
        Ok(()) => put_rest(sink, rest),
        Err(failed) => Err(failed),
    }
}
