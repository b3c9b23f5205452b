//! The answer to the program's words over the library of its functions.

ghost use Rattle.std.specs.Prelude.{◌≡◌, IfOk, OnErr, map};
ghost use Rattle.lasp_program.specs.Prelude.{IsSized, passes, lifted, reading_of, writing_of, IsTopAnswered, val_of, lift_op_of, Answers, words_of, program_maps, program_predicates, program_lifts, program_library, map_entry, predicate_entry, lift_entry};

use crate::functions::{Condition, LIFTS, MAPS, PREDICATES};
use crate::library::{add_lift, add_map, add_predicate};
use crate::operations::{conditions_of, steps_of};
use lasp_edge::{Files, Sink};
use lasp_fns::{Library, LiftOp, MapOp, apply_lift, apply_map, apply_pred};
use lasp_top::top;
use lasp_value::Value;
use lasp_workers::Gate;
use std::alloc::{AllocError, AllocGlobal, Global};
use std::random::RandomSource;
use std::sync::Wait;
use std::thread::Threads;

/// Answers the words as `top` does over the program's functions. Where no memory is found for these, nothing is read or written.
pub fn answer_words<
    R: Threads + Wait + RandomSource + AllocGlobal + Sync,
    F: Files,
    O: Sink,
    E: Sink,
    G: Gate + Sync,
>(
    rt: &R,
    alloc: Global,
    words: &[String],
    files: &mut F,
    out: &mut O,
    err: &mut E,
    gate: &G,
) -> Result<u8, AllocError>
    ensures answered { IfOk result (IsTopAnswered program_library (words_of words.now) (reading_of F.content F.faults files.old files.new)
        (writing_of O.written O.faults out.old out.new) (writing_of E.written E.faults err.old err.new)) }
    // where the library found no memory, nothing was done
    ensures err { OnErr result ((files.new ≡ files.old) × (out.new ≡ out.old) × (err.new ≡ err.old)) }
{
    answer_over(
        rt,
        alloc,
        &MAPS,
        &PREDICATES,
        &LIFTS,
        words,
        files,
        out,
        err,
        gate,
    )
}

/// Answers the words over the functions of these tables, whose closures are made here. They come as slices, so that no step of the loops speaks of all their entries.
fn answer_over<
    R: Threads + Wait + RandomSource + AllocGlobal + Sync,
    F: Files,
    O: Sink,
    E: Sink,
    G: Gate + Sync,
>(
    rt: &R,
    alloc: Global,
    maps: &[(&str, &[MapOp])],
    predicates: &[(&str, &[Condition])],
    lifts: &[(&str, LiftOp)],
    words: &[String],
    files: &mut F,
    out: &mut O,
    err: &mut E,
    gate: &G,
) -> Result<u8, AllocError>
    // the functions are those of the program
    requires maps { map map_entry maps.now ≡ program_maps }
    requires predicates { map predicate_entry predicates.now ≡ program_predicates }
    requires lifts { map lift_entry lifts.now ≡ program_lifts }
    // the clauses of `answer_words`
    ensures answered { IfOk result (IsTopAnswered program_library (words_of words.now) (reading_of F.content F.faults files.old files.new)
        (writing_of O.written O.faults out.old out.new) (writing_of E.written E.faults err.old err.new)) }
    ensures err { OnErr result ((files.new ≡ files.old) × (out.new ≡ out.old) × (err.new ≡ err.old)) }
{
    let mut library = Library::new(alloc);
    for (name, steps) in maps {
        let mine = steps_of(alloc, steps)?;
        let f = move |v: &Value| -> Result<Value, AllocError>
            requires { IsSized (val_of v.now) }
            ensures { Answers mine (val_of v.entry.now) result }
        { apply_map(alloc, &mine, v) };
        add_map(alloc, &mut library, name, steps, Box::new(alloc, f)?)?;
    }
    for (name, conditions) in predicates {
        let mine = conditions_of(alloc, conditions)?;
        let f = move |v: &Value| -> bool
            requires { IsSized (val_of v.now) }
            ensures { result ≡ passes mine (val_of v.entry.now) }
        { apply_pred(&mine, v) };
        add_predicate(alloc, &mut library, name, conditions, Box::new(alloc, f)?)?;
    }
    for (name, op) in lifts {
        let mine = *op;
        let f = move |v: &Value| -> i64
            requires { IsSized (val_of v.now) }
            ensures { result ≡ lifted (lift_op_of mine) (val_of v.entry.now) }
        { apply_lift(&mine, v) };
        add_lift(&mut library, name, *op, Box::new(alloc, f)?)?;
    }
    Ok(top(rt, alloc, words, files, out, err, &library, gate))
}
