//! A call with words of any bytes.

ghost use Rattle.std.specs.Prelude.{◌≡◌, ◌⊎◌, IfOk, OnErr};
ghost use Rattle.lasp_program.specs.Prelude.{reading_of, writing_of, AreTexts, IsTopAnswered, IsUsage, program_library, bytes_of, TextsOrNone};

use crate::answer::answer_words;
use lasp_edge::{Files, Sink};
use lasp_workers::Gate;
use std::alloc::{AllocError, AllocGlobal, Global};
use std::random::RandomSource;
use std::sync::Wait;
use std::thread::Threads;

/// The words as texts, or `None` where one of them is none.
pub fn texts_of(alloc: Global, words: &[Vec<u8>]) -> Result<Option<Vec<String>>, AllocError>
    ensures { IfOk result (TextsOrNone (bytes_of words.now)) }
{
    let mut texts = Vec::new(alloc);
    for word in words {
        match str::from_utf8(word) {
            Ok(text) => texts.push(String::from_str(alloc, text)?)?,
            Err(_) => return Ok(None),
        }
    }
    Ok(Some(texts))
}

/// A call of the program with the words behind its name. Where no memory is found for them or for the functions, nothing is read or written.
pub fn answer_call<
    R: Threads + Wait + RandomSource + AllocGlobal + Sync,
    F: Files,
    O: Sink,
    E: Sink,
    G: Gate + Sync,
>(
    rt: &R,
    alloc: Global,
    words: &[Vec<u8>],
    files: &mut F,
    out: &mut O,
    err: &mut E,
    gate: &G,
) -> Result<u8, AllocError>
    // the words are those of the call that is answered; a word that is no text is usage
    ensures answered { IfOk result (λ status.
        (AreTexts (bytes_of words.now) × IsTopAnswered program_library (bytes_of words.now) (reading_of F.content F.faults files.old files.new)
        (writing_of O.written O.faults out.old out.new) (writing_of E.written E.faults err.old err.new) status)
        ⊎ (¬ AreTexts (bytes_of words.now) × IsUsage (reading_of F.content F.faults files.old files.new)
        (writing_of O.written O.faults out.old out.new) (writing_of E.written E.faults err.old err.new) status)) }
    ensures err { OnErr result ((files.new ≡ files.old) × (out.new ≡ out.old) × (err.new ≡ err.old)) }
{
    match texts_of(alloc, words)? {
        Some(texts) => answer_words(rt, alloc, &texts, files, out, err, gate),
        None => {
            let _ = err.put(b"usage\n");
            Ok(1)
        }
    }
}
