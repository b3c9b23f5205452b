//! Long lists of calls that look random and are the same at each run.

ghost use Rattle.std.specs.Prelude.{◌<◌};

use crate::call::{Call, Doing, Until, Verb};
use crate::library::library;
use crate::table::{Table, Tally};
use crate::wrong::Wrong;
use std::alloc::Global;
use std::test::Fail;

/// Sources of each kind, and processes of each kind.
const OPENING: &str =
    r#"[["a","orset"],["b","orset"],["g","gset"],["c","counter"],["x","maxreg"],["u","union","a","b"],["p","product","a","b"],["i","intersection","u","b"],["m","map","u","abs"],["e","filter","m","even"],["s","fold","u","sum","itself"],["q","fold","a","xor","itself"]]"#;

/// Variables and what is done to them. Some don't go together, and some variables are declared late or never.
const UPDATES: [(u8, Doing); 16] = [
    (0, Doing::Add),
    (0, Doing::Add),
    (0, Doing::Remove),
    (0, Doing::Join),
    (1, Doing::Add),
    (1, Doing::Add),
    (1, Doing::Remove),
    (2, Doing::Insert),
    (3, Doing::Count),
    (4, Doing::Raise),
    (12, Doing::Add),
    (12, Doing::Remove),
    (5, Doing::Add),
    (2, Doing::Remove),
    (0, Doing::Count),
    (200, Doing::Raise),
];

/// What reads wait for.
const UNTIL: [Until; 4] = [Until::Counted, Until::Added, Until::Removed, Until::More];

/// A number from 0 on, below so many, that follows from a seed and looks random.
fn roll(seed: &mut u64, sides: u64) -> u64
    requires { 0 < sides }
    ensures { result < sides }
{
    *seed = seed
        .wrapping_mul(6_364_136_223_846_793_005)
        .wrapping_add(1_442_695_040_888_963_407);
    (*seed >> 33) % sides
}

/// A call of the core under test.
fn call(verb: Verb, first: u64) -> Call
    requires { first < 256 }
{
    Call {
        is_there: false,
        verb,
        first: first as u8,
        second: 0,
    }
}

/// Some call.
fn some_call(seed: &mut u64) -> Call {
    let (var, doing) = UPDATES[roll(seed, 16) as usize];
    let second = roll(seed, 9) as i64 - 4;
    let update = Call {
        is_there: false,
        verb: Verb::Update(doing),
        first: var,
        second,
    };
    match roll(seed, 24) {
        0..=7 => update,
        8..=9 => Call {
            is_there: true,
            ..update
        },
        10..=11 => call(Verb::Send, 0),
        12..=14 => call(Verb::Deliver, roll(seed, 20)),
        15 => Call {
            second: roll(seed, 90) as i64,
            ..call(Verb::Open(UNTIL[roll(seed, 4) as usize]), roll(seed, 17))
        },
        16 => call(Verb::Ask, roll(seed, 20)),
        17 => call(Verb::Close, roll(seed, 20)),
        18..=19 => call(Verb::Take, roll(seed, 17)),
        20 => call(Verb::End, roll(seed, 3)),
        21 => call(Verb::Back, roll(seed, 3)),
        22 => call(Verb::Settle, roll(seed, 17)),
        _ => call(Verb::Work, 0),
    }
}

/// The same call so often.
fn repeat(table: &mut Table, one: Call, often: u32) -> Result<(), Wrong> {
    for _ in 0..often {
        table.play(one)?;
    }
    Ok(())
}

/// So many times some call, and after each ninth as many jobs as there are variables at most.
fn play_some(table: &mut Table, seed: &mut u64, often: u32) -> Result<(), Wrong> {
    for turn in 0..often {
        table.play(some_call(seed))?;
        if turn % 9 == 8 {
            repeat(table, call(Verb::Work, 0), 16)?;
        }
    }
    Ok(())
}

/// Calls, with variables that are declared between them, at the other core later than at the one under test, and a message of another graph, which is refused at each delivery.
fn play(table: &mut Table, seed: &mut u64, often: u32) -> Result<(), Wrong> {
    table.play(call(Verb::Stray, 0))?;
    play_some(table, seed, often)?;
    table.play(call(Verb::Declare, 2))?;
    play_some(table, seed, often)?;
    table.play(Call {
        is_there: true,
        ..call(Verb::Declare, 2)
    })?;
    table.play(call(Verb::Declare, 3))?;
    table.play(call(Verb::Declare, 4))?;
    play_some(table, seed, often)
}

/// How often what came, and whether the core is settled in the end.
fn outcome(alloc: Global) -> Result<(Tally, bool), Wrong> {
    let lib = library(alloc)?;
    let mut table = Table::new(alloc, &lib, OPENING)?;
    play(&mut table, &mut 2026, 270)?;
    Ok((table.tally, table.desk.core().check_settled().is_ok()))
}

#[test]
fn whatever_came_in_whatever_order_a_settled_core_is_what_plain_evaluation_gives(
    rt: HostRuntime,
) -> Result<(), Fail> {
    let (tally, is_settled) = outcome(rt.alloc())?;
    assert!(rt; is_settled && tally.refused > 20, "{tally:?}");
    assert!(rt; tally.compared > 200 && tally.settled > 50, "{tally:?}");
    Ok(())
}
