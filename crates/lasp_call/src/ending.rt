//! How a call ends: its text on `out`, or its one line on `err`, and its status.

ghost use Rattle.std.specs.Prelude.{◌≤◌};
ghost use Rattle.lasp_call.specs.Prelude.{words_of, answered, Ends, EndsWithText, writing_of};

mod line;
pub(crate) mod status;
pub(crate) mod tell;

use crate::ending::status::status;
use crate::ending::tell::{tell, tell_failure};
use lasp_edge::Sink;
use model_program::Failure;

/// Writes the text by one `put`; an empty one by none, so no fault can come. It answers the status: 0, or 5 with a line on `err`.
#[tactic(auto, using(crate::proofs::TellLaws::texts))]
pub fn end_with_text<O: Sink, E: Sink>(text: &[u8], out: &mut O, err: &mut E) -> u8
    ensures out_later { O.faults out.old ≤ O.faults out.new }
    ensures err_later { E.faults err.old ≤ E.faults err.new }
    ensures ends { EndsWithText text.now (writing_of O.written O.faults out.old out.new) (writing_of E.written E.faults err.old err.new) result }
{
    if text.is_empty() {
        return 0;
    }
    match out.put(text) {
        Ok(()) => 0,
        Err(_) => {
            tell(err, b"write fault", &[]);
            5
        }
    }
}

/// Writes the text, or says why there is none, and answers the status.
#[tactic(auto, unfolding(model_program::specs::Ends::Ends))]
pub fn end<O: Sink, E: Sink>(
    words: &[String],
    answer: Result<Vec<u8>, Failure>,
    out: &mut O,
    err: &mut E,
) -> u8
    ensures out_later { O.faults out.old ≤ O.faults out.new }
    ensures err_later { E.faults err.old ≤ E.faults err.new }
    ensures ends { Ends (words_of words.now) (answered answer) (writing_of O.written O.faults out.old out.new)
        (writing_of E.written E.faults err.old err.new) result }
{
    match answer {
        Ok(text) => end_with_text(&text, out, err),
        Err(failure) => {
            tell_failure(words, &failure, err);
            status(&failure)
        }
    }
}
