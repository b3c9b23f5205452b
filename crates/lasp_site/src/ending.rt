//! How a call ends: the state on `out`, or one line on `err`, and the status.

ghost use Rattle.std.specs.Prelude.{◌≤◌};
ghost use Rattle.lasp_call.specs.Words.{words_of};
ghost use Rattle.lasp_site.specs.Failure.{answered};
ghost use Rattle.model_program.specs.Call.{writing_of};
ghost use Rattle.model_site.specs.Ends.{Ends};

mod status;
mod tell;

use crate::ending::status::status;
use crate::ending::tell::tell_failure;
use lasp_call::end_with_text;
use lasp_edge::Sink;
use model_site::SiteFailure;

/// Writes the state, or says why there is none, and answers the status.
#[tactic(auto, unfolding(model_site::specs::Ends::Ends))]
pub(crate) fn end<O: Sink, E: Sink>(
    words: &[String],
    answer: Result<Vec<u8>, SiteFailure>,
    out: &mut O,
    err: &mut E,
) -> u8
    ensures out_later { O.faults out.old ≤ O.faults out.new }
    ensures err_later { E.faults err.old ≤ E.faults err.new }
    ensures ends { Ends (words_of words.now) (answered answer) (writing_of O.written O.faults out.old out.new)
        (writing_of E.written E.faults err.old err.new) result }
{
    match answer {
        Ok(bytes) => end_with_text(&bytes, out, err),
        Err(failure) => {
            tell_failure(words, &failure, err);
            status(&failure)
        }
    }
}
