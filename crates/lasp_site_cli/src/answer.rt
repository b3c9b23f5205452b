//! The answer to the words of a site over the library of the functions of `lasp`.

ghost use Rattle.std.specs.Prelude.{◌≡◌, ◌⊎◌, IfOk, OnErr, map};
ghost use Rattle.model_values.specs.Size.{IsSized};
ghost use Rattle.model_functions.specs.Predicate.{passes};
ghost use Rattle.model_functions.specs.Lift.{lifted};
ghost use Rattle.model_program.specs.Call.{reading_of, writing_of, AreTexts, IsUsage};
ghost use Rattle.model_site.specs.Call.{IsAnswered};
ghost use Rattle.lasp_value.specs.Value.{val_of};
ghost use Rattle.lasp_fns.specs.Lift.{lift_op_of};
ghost use Rattle.lasp_fns.specs.Answers.{Answers};
ghost use Rattle.lasp_program.specs.Call.{bytes_of, TextsOrNone};
ghost use Rattle.lasp_program.specs.Functions.{program_maps, program_predicates, program_lifts, program_library};
ghost use Rattle.lasp_program.specs.Tables.{map_entry, predicate_entry, lift_entry};
ghost use Rattle.lasp_call.specs.Words.{words_of};

use lasp_edge::{Files, Sink};
use lasp_fns::{Library, LiftOp, MapOp, apply_lift, apply_map, apply_pred};
use lasp_program::{
    Condition, LIFTS, MAPS, PREDICATES, add_lift, add_map, add_predicate, conditions_of, steps_of,
    texts_of,
};
use lasp_site::answer_site;
use lasp_value::Value;
use std::alloc::{AllocError, Global};

/// Answers the words as `answer_site` does over the program's functions. Where no memory is found for these, nothing is read or written.
#[tactic(auto, unfolding(lasp_program::specs::Functions::program_maps, lasp_program::specs::Functions::program_predicates, lasp_program::specs::Functions::program_lifts))]
fn answer_words<F: Files, O: Sink, E: Sink>(
    alloc: Global,
    words: &[String],
    files: &mut F,
    out: &mut O,
    err: &mut E,
) -> Result<u8, AllocError>
    ensures answered { IfOk result (IsAnswered program_library (words_of words.now) (reading_of F.content F.faults files.old files.new)
        (writing_of O.written O.faults out.old out.new) (writing_of E.written E.faults err.old err.new)) }
    ensures err { OnErr result ((files.new ≡ files.old) × (out.new ≡ out.old) × (err.new ≡ err.old)) }
{
    answer_over(alloc, &MAPS, &PREDICATES, &LIFTS, words, files, out, err)
}

/// Answers the words over the functions of these tables, whose closures are made here.
fn answer_over<F: Files, O: Sink, E: Sink>(
    alloc: Global,
    maps: &[(&str, &[MapOp])],
    predicates: &[(&str, &[Condition])],
    lifts: &[(&str, LiftOp)],
    words: &[String],
    files: &mut F,
    out: &mut O,
    err: &mut E,
) -> Result<u8, AllocError>
    // the functions are those of the program
    requires maps { map map_entry maps.now ≡ program_maps }
    requires predicates { map predicate_entry predicates.now ≡ program_predicates }
    requires lifts { map lift_entry lifts.now ≡ program_lifts }
    // the clauses of `answer_words`
    ensures answered { IfOk result (IsAnswered program_library (words_of words.now) (reading_of F.content F.faults files.old files.new)
        (writing_of O.written O.faults out.old out.new) (writing_of E.written E.faults err.old err.new)) }
    ensures err { OnErr result ((files.new ≡ files.old) × (out.new ≡ out.old) × (err.new ≡ err.old)) }
{
    let mut library = Library::new(alloc);
    for (name, steps) in maps {
        let mine = steps_of(alloc, steps)?;
        let f = move |v: &Value| -> Result<Value, AllocError>
            requires { IsSized (val_of v.now) }
            ensures { Answers mine (val_of v.entry.now) result }
        { apply_map(alloc, &mine, v) };
        add_map(alloc, &mut library, name, steps, Box::new(alloc, f)?)?;
    }
    for (name, conditions) in predicates {
        let mine = conditions_of(alloc, conditions)?;
        let f = move |v: &Value| -> bool
            requires { IsSized (val_of v.now) }
            ensures { result ≡ passes mine (val_of v.entry.now) }
        { apply_pred(&mine, v) };
        add_predicate(alloc, &mut library, name, conditions, Box::new(alloc, f)?)?;
    }
    for (name, op) in lifts {
        let mine = *op;
        let f = move |v: &Value| -> i64
            requires { IsSized (val_of v.now) }
            ensures { result ≡ lifted (lift_op_of mine) (val_of v.entry.now) }
        { apply_lift(&mine, v) };
        add_lift(&mut library, name, *op, Box::new(alloc, f)?)?;
    }
    Ok(answer_site(alloc, words, files, out, err, &library))
}

/// A call with words of any bytes. Where no memory is found for them or for the functions, nothing is read or written.
pub fn answer_call<F: Files, O: Sink, E: Sink>(
    alloc: Global,
    words: &[Vec<u8>],
    files: &mut F,
    out: &mut O,
    err: &mut E,
) -> Result<u8, AllocError>
    // the words are those of the call that is answered; a word that is no text is usage
    ensures answered { IfOk result (λ status.
        (AreTexts (bytes_of words.now) × IsAnswered program_library (bytes_of words.now) (reading_of F.content F.faults files.old files.new)
        (writing_of O.written O.faults out.old out.new) (writing_of E.written E.faults err.old err.new) status)
        ⊎ (¬ AreTexts (bytes_of words.now) × IsUsage (reading_of F.content F.faults files.old files.new)
        (writing_of O.written O.faults out.old out.new) (writing_of E.written E.faults err.old err.new) status)) }
    ensures err { OnErr result ((files.new ≡ files.old) × (out.new ≡ out.old) × (err.new ≡ err.old)) }
{
    match texts_of(alloc, words)? {
        Some(texts) => answer_words(alloc, &texts, files, out, err),
        None => {
            let _ = err.put(b"usage\n");
            Ok(1)
        }
    }
}
