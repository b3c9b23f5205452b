//! Stores of one thread.

use crate::desk::Desk;
use crate::feeding::Doing;
use crate::wrong::Wrong;
use lasp_fns::Library;
use lasp_state::Threshold;
use lasp_value::{Value, Values};
use lasp_wire::Message;
use std::alloc::Global;
use std::sync::{Arc, Wait};
use std::test::Fail;

/// A counter.
const COUNTER: &str = r#"[["c","counter"]]"#;

/// A set.
const SET: &str = r#"[["a","orset"]]"#;

/// A set and what is made of it.
const UNION: &str = r#"[["a","orset"],["u","union","a","a"]]"#;

/// A set, a counter, and what is made of the set.
const MIXED: &str = r#"[["a","orset"],["c","counter"],["u","union","a","a"]]"#;

/// A product of two sets.
const PRODUCT: &str = r#"[["a","orset"],["b","orset"],["p","product","a","b"]]"#;

/// The same, and their union behind it.
const PRODUCT_AND_UNION: &str =
    r#"[["a","orset"],["b","orset"],["p","product","a","b"],["u","union","a","b"]]"#;

/// How settling a store ends whose two sets have so many rows, and of which variable a hand is then asked to do a job, twice, since it gives the first back.
fn settled<R: Wait>(
    rt: &R,
    alloc: Global,
    text: &str,
    first: u32,
    second: u32,
) -> Result<String, Wrong> {
    let lib = Library::new(alloc);
    let mut desk = Desk::new(alloc, text, &lib, 0)?;
    desk.add_below(rt, 0, first);
    desk.add_below(rt, 1, second);
    desk.settle(rt, alloc, &lib);
    desk.ask(rt);
    desk.ask(rt);
    desk.into_text()
}

#[test]
fn a_product_is_settled_or_told_to_be_too_large(rt: HostRuntime) -> Result<(), Fail> {
    let small = settled(&rt, rt.alloc(), PRODUCT, 3, 4)?;
    assert_eq!(rt; small.as_str(), "settled at 8; no job; no job; ");
    let large = settled(&rt, rt.alloc(), PRODUCT, 257, 256)?;
    assert_eq!(rt; large.as_str(), "2 is too large; job of 2; job of 2; ");
    Ok(())
}

#[test]
fn a_job_that_is_given_back_is_the_next_one_again(rt: HostRuntime) -> Result<(), Fail> {
    let told = settled(&rt, rt.alloc(), PRODUCT_AND_UNION, 257, 256)?;
    // a job of the product that were out still would let the union come first
    assert_eq!(rt; told.as_str(), "2 is too large; job of 2; job of 2; ");
    Ok(())
}

/// A read of a counter, polled before and after it is met, and one that is closed.
fn counted<R: Wait>(rt: &R, alloc: Global) -> Result<String, Wrong> {
    let mut desk = Desk::new(alloc, COUNTER, &Library::new(alloc), 0)?;
    desk.open(rt, 0, Threshold::Count(5));
    desk.update(rt, 0, Doing::Inc, 3);
    desk.poll(rt);
    desk.update(rt, 0, Doing::Inc, 4);
    desk.poll(rt);
    desk.update(rt, 0, Doing::Inc, 1);
    desk.open(rt, 0, Threshold::Count(9));
    desk.close(rt);
    desk.update(rt, 0, Doing::Inc, 1);
    desk.poll(rt);
    desk.entries();
    desk.into_text()
}

#[test]
fn a_read_is_released_once_by_the_update_that_meets_it(rt: HostRuntime) -> Result<(), Fail> {
    let told = counted(&rt, rt.alloc())?;
    assert_eq!(rt;
        told.as_str(),
        "ok; none; none; ok 0; 7; 7; ok; ok; 9; 9; 4 entries; "
    );
    Ok(())
}

/// The message of another replica of the counter.
fn message_of_seven<R: Wait>(rt: &R, alloc: Global) -> Result<Arc<Message>, Wrong> {
    let mut sender = Desk::new(alloc, COUNTER, &Library::new(alloc), 1)?;
    sender.update(rt, 0, Doing::Inc, 7);
    sender.message(rt, alloc)
}

/// A read of a counter that a message brings to its threshold.
fn delivered<R: Wait>(rt: &R, alloc: Global, message: &Arc<Message>) -> Result<String, Wrong> {
    let mut desk = Desk::new(alloc, COUNTER, &Library::new(alloc), 0)?;
    desk.open(rt, 0, Threshold::Count(5));
    desk.deliver(rt, 0, message);
    desk.poll(rt);
    desk.deliver(rt, 0, message);
    desk.into_text()
}

#[test]
fn a_read_is_released_once_by_the_message_that_meets_it(rt: HostRuntime) -> Result<(), Fail> {
    let message = message_of_seven(&rt, rt.alloc())?;
    let told = delivered(&rt, rt.alloc(), &message)?;
    assert_eq!(rt; told.as_str(), "ok 0; 7; 7; ok; ");
    Ok(())
}

/// That a number was added.
fn added(alloc: Global, number: i64) -> Result<Threshold, Wrong> {
    let mut values = Values::new(alloc);
    values.push(Value::Int(number))?;
    Ok(Threshold::Added(values))
}

/// A read of a union that the union's job brings to its threshold, and not the update before it.
fn worked<R: Wait>(rt: &R, alloc: Global) -> Result<String, Wrong> {
    let lib = Library::new(alloc);
    let threshold = added(alloc, 5)?;
    let mut desk = Desk::new(alloc, UNION, &lib, 0)?;
    desk.open(rt, 1, threshold);
    desk.update(rt, 0, Doing::Add, 5);
    desk.poll(rt);
    desk.work(rt, alloc, &lib);
    desk.poll(rt);
    desk.work(rt, alloc, &lib);
    desk.check(rt);
    desk.into_text()
}

#[test]
fn a_read_is_released_once_by_the_result_that_meets_it(rt: HostRuntime) -> Result<(), Fail> {
    let told = worked(&rt, rt.alloc())?;
    assert_eq!(rt;
        told.as_str(),
        "ok; none; none; ok 0; 2 rows; [5]; [5]; NoJob; 0 rows; settled at 2; "
    );
    Ok(())
}

/// Two messages of one replica of the set, of which the second has what the first has.
fn messages_of_two<R: Wait>(rt: &R, alloc: Global) -> Result<(Arc<Message>, Arc<Message>), Wrong> {
    let mut sender = Desk::new(alloc, SET, &Library::new(alloc), 0)?;
    sender.try_update(0, Doing::Add, 5);
    let first = sender.message(rt, alloc)?;
    sender.try_update(0, Doing::Add, 6);
    let second = sender.message(rt, alloc)?;
    Ok((first, second))
}

/// A replica of the set that gets the messages of another out of order, by calls that try once.
fn tried<R: Wait>(
    rt: &R,
    alloc: Global,
    first: &Arc<Message>,
    second: &Arc<Message>,
) -> Result<String, Wrong> {
    let mut desk = Desk::new(alloc, SET, &Library::new(alloc), 1)?;
    desk.try_update(0, Doing::Inc, 1);
    desk.try_deliver(1, second);
    desk.try_deliver(0, first);
    desk.try_deliver(1, second);
    desk.look(rt, 0);
    desk.mark(rt, 0);
    desk.entries();
    desk.into_text()
}

#[test]
fn calls_that_try_once_have_the_core_where_nobody_else_does(rt: HostRuntime) -> Result<(), Fail> {
    let (first, second) = messages_of_two(&rt, rt.alloc())?;
    let told = tried(&rt, rt.alloc(), &first, &second)?;
    assert_eq!(rt;
        told.as_str(),
        "WrongOp; ok; ok; ok; [5,6]; [5,6]; [5,6]; [5,6]; 3 entries; "
    );
    Ok(())
}

/// The message of a replica of another graph.
fn message_of_stranger<R: Wait>(rt: &R, alloc: Global) -> Result<Arc<Message>, Wrong> {
    let text = r#"[["b","orset"]]"#;
    Desk::new(alloc, text, &Library::new(alloc), 1)?.message(rt, alloc)
}

/// States, the read, and how many entries there are.
fn tell<R: Wait>(desk: &mut Desk, rt: &R) {
    desk.look(rt, 0);
    desk.look(rt, 1);
    desk.look(rt, 2);
    desk.poll(rt);
    desk.check(rt);
    desk.entries();
}

/// Calls that are refused, between calls that tell of states, entries and a read.
fn refused<R: Wait>(rt: &R, alloc: Global, stranger: &Arc<Message>) -> Result<String, Wrong> {
    let mut desk = Desk::new(alloc, MIXED, &Library::new(alloc), 0)?;
    desk.check(rt);
    desk.update(rt, 0, Doing::Add, 1);
    desk.update(rt, 1, Doing::Inc, 2);
    desk.open(rt, 1, Threshold::Count(3));
    desk.update(rt, 9, Doing::Add, 4);
    desk.update(rt, 2, Doing::Add, 4);
    desk.try_update(0, Doing::Inc, 4);
    desk.deliver(rt, 0, stranger);
    desk.try_deliver(0, stranger);
    tell(&mut desk, rt);
    desk.update(rt, 1, Doing::Inc, 1);
    desk.into_text()
}

#[test]
fn a_refused_call_leaves_states_and_entries_and_reads(rt: HostRuntime) -> Result<(), Fail> {
    let stranger = message_of_stranger(&rt, rt.alloc())?;
    let told = refused(&rt, rt.alloc(), &stranger)?;
    assert_eq!(rt;
        told.as_str(),
        "settled at 0; ok; ok; UnknownVar; NotASource; WrongOp; WrongGraph; WrongGraph; [1]; [1]; 2; 2; []; []; none; none; 2 lacks 0; 2 entries; ok 0; "
    );
    Ok(())
}
