//! How states of each kind behave, against texts and answers written by hand.

ghost use Rattle.std.specs.Prelude.{IfSome};
ghost use Rattle.lasp_state.specs.State.{shape_of, IsOpOf};

use lasp_state::*;
use lasp_value::Value;
use std::alloc::{AllocError, Global};
use std::test::Fail;

/// What a state is told.
#[derive(Clone, Copy)]
enum Told {
    Add(i64),
    Remove(i64),
    Insert(i64),
    Inc(u32),
    Max(i64),
}

/// The operation of replica 1, where the state takes it.
fn op_for(told: &Told, s: &State) -> Option<Op>
    ensures { IfSome result (λ op. IsOpOf op 1 (shape_of s.now)) }
{
    match (told, s) {
        (Told::Add(n), State::Set(_)) => Some(Op::Add(Value::Int(*n))),
        (Told::Remove(n), State::Set(_)) => Some(Op::Remove(Value::Int(*n))),
        (Told::Insert(n), State::Grow(_)) => Some(Op::Insert(Value::Int(*n))),
        (Told::Inc(by), State::Count(counts)) if counts.nodes() > 1 => Some(Op::Inc(*by)),
        (Told::Max(n), State::Max(_)) => Some(Op::Max(*n)),
        (_, _) => None,
    }
}

fn shows(alloc: Global, s: &State, text: &str) -> Result<bool, AllocError> {
    Ok(print_state(alloc, s)?.as_str() == text)
}

/// What a state is told, the number of its token, whether it grows, and what it then shows.
type Step<'a> = (Told, u64, bool, &'a str);

/// Joins an update of replica 1 in, and tells whether the state grew.
fn update(alloc: Global, s: &mut State, op: &Op, k: u64) -> Result<bool, AllocError>
    requires { IsOpOf op.now 1 (shape_of s.old) }
{
    let delta = s.delta(alloc, op, 1, k)?;
    s.join_in(&delta)
}

/// Whether a state that is told something goes so.
fn goes_so(alloc: Global, s: &mut State, step: &Step) -> Result<bool, AllocError> {
    match op_for(&step.0, s) {
        Some(op) => {
            let grew = update(alloc, s, &op, step.1)?;
            Ok(grew == step.2 && shows(alloc, s, step.3)?)
        }
        None => Ok(false),
    }
}

/// Whether a state goes by these steps, and its clone shows what it does.
fn passes(alloc: Global, s: &mut State, steps: &[Step]) -> Result<bool, AllocError> {
    for step in steps {
        if !goes_so(alloc, s, step)? || !shows(alloc, &s.try_clone()?, step.3)? {
            return Ok(false);
        }
    }
    Ok(true)
}

/// The least state of a kind, as plain data; of a counter with the number of its nodes.
#[derive(Clone, Copy)]
enum Least {
    Set,
    Fold,
    Elements,
    Count(u8),
    Number,
}

fn state_of(alloc: Global, least: &Least) -> Result<State, AllocError> {
    match least {
        Least::Set => Ok(State::empty_set(alloc)),
        Least::Fold => Ok(State::empty_fold(alloc)),
        Least::Elements => Ok(State::no_elements(alloc)),
        Least::Count(nodes) => State::zero_count(alloc, *nodes),
        Least::Number => Ok(State::no_number()),
    }
}

/// A state, what it shows, its steps, and how many rows or elements it has then.
type Story<'a> = (Least, &'a str, &'a [Step<'a>], u64);

/// The first state that goes otherwise.
fn first_story<'a>(alloc: Global, stories: &'a [Story<'a>]) -> Result<Option<&'a str>, AllocError> {
    for (least, text, steps, size) in stories {
        let mut s = state_of(alloc, least)?;
        if !shows(alloc, &s, text)? || !passes(alloc, &mut s, steps)? || s.size() != *size {
            return Ok(Some(text));
        }
    }
    Ok(None)
}

static STORIES: [Story; 5] = [
    (
        Least::Set,
        "[]",
        &[
            (Told::Add(-3), 1, true, "[-3]"),
            (Told::Add(-3), 1, false, "[-3]"),
            (Told::Add(4), 2, true, "[-3,4]"),
            (Told::Remove(-3), 3, true, "[4]"),
            (Told::Remove(9), 4, false, "[4]"),
        ],
        2,
    ),
    (
        Least::Elements,
        "[]",
        &[
            (Told::Insert(7), 1, true, "[7]"),
            (Told::Insert(-1), 1, true, "[-1,7]"),
            (Told::Insert(7), 1, false, "[-1,7]"),
        ],
        2,
    ),
    (
        Least::Number,
        "null",
        &[
            (Told::Max(-5), 1, true, "-5"),
            (Told::Max(-9), 1, false, "-5"),
        ],
        0,
    ),
    (
        Least::Count(3),
        "0",
        &[
            (Told::Inc(41), 1, true, "41"),
            (Told::Inc(4_294_967_295), 1, true, "4294967336"),
        ],
        0,
    ),
    (Least::Fold, "0", &[], 0),
];

#[test]
fn a_state_shows_what_it_was_told(rt: HostRuntime) -> Result<(), Fail> {
    assert_eq!(rt; first_story(rt.alloc(), &STORIES)?, None);
    Ok(())
}
