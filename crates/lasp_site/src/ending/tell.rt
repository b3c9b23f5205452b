//! The one line on `err`. No memory is taken, and a fault there changes no status.

ghost use Rattle.std.specs.Prelude.{◌≡◌, ◌≤◌, ◌∷◌, [], map, codes};
ghost use Rattle.std.specs.Fmt.{decimal};
ghost use Rattle.lasp_call.specs.Words.{words_of};
ghost use Rattle.model_world.specs.Line.{line};
ghost use Rattle.model_program.specs.Ends.{Tells};
ghost use Rattle.model_program.specs.Call.{writing_of};
ghost use Rattle.model_site.specs.Line.{site_refusal_words, line_of};

use itoa::Buffer;
use lasp_call::{tell, tell_refusal, word};
use lasp_edge::Sink;
use model_site::{SiteFailure, SiteRefusal};

fn tell_site_refusal<E: Sink>(words: &[String], refusal: &SiteRefusal, err: &mut E)
    ensures later { E.faults err.old ≤ E.faults err.new }
    ensures told { Tells (writing_of E.written E.faults err.old err.new) (line (site_refusal_words (words_of words.now) refusal.now)) }
{
    let mut first = Buffer::new();
    let mut second = Buffer::new();
    match refusal {
        SiteRefusal::Shared(refusal) => tell_refusal(words, refusal, err),
        SiteRefusal::NotLocal(command) => tell(
            err,
            b"script",
            &[first.format(*command).as_bytes(), b"NotLocal"],
        ),
        SiteRefusal::FileTooLarge(file, node, name) => tell(
            err,
            b"too large file",
            &[
                word(words, *file),
                second.format(*node).as_bytes(),
                name.as_str().as_bytes(),
            ],
        ),
        SiteRefusal::UpdatesFull(command, node) => tell(
            err,
            b"updates full",
            &[
                first.format(*command).as_bytes(),
                second.format(*node).as_bytes(),
            ],
        ),
    }
}

/// Writes the line of a failure.
pub(crate) fn tell_failure<E: Sink>(words: &[String], failure: &SiteFailure, err: &mut E)
    ensures later { E.faults err.old ≤ E.faults err.new }
    ensures told { Tells (writing_of E.written E.faults err.old err.new) (line_of (words_of words.now) failure.now) }
{
    match failure {
        SiteFailure::Refused(refusal) => tell_site_refusal(words, refusal, err),
        SiteFailure::ReadFault(file) => tell(err, b"read fault", &[word(words, *file)]),
        SiteFailure::Memory => tell(err, b"out of memory", &[]),
    }
}
