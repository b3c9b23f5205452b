//! The calls of a history, once each.

use lasp_logset::add_delta;
use lasp_replica::History;
use lasp_value::Value;
use std::alloc::{AllocError, Global};
use std::test::Fail;

/// A history with a growth at entries 3 and 5.
fn grown(alloc: Global) -> Result<History, AllocError> {
    let mut history = History::new(alloc);
    history.prepare(&add_delta(alloc, &Value::Int(7), 0, 1)?)?;
    history.record(3);
    history.prepare(&add_delta(alloc, &Value::Int(9), 0, 2)?)?;
    history.record(5);
    Ok(history)
}

#[test]
fn a_reader_gets_the_rows_since_it_read(rt: HostRuntime) -> Result<(), Fail> {
    let history = grown(rt.alloc())?;
    let since = history.since(rt.alloc(), 5)?;
    assert!(rt; since.rows() == 1 && since.has(&Value::Int(9)));
    assert!(rt; history.version() == 2 && history.version_before(5) == 1);
    assert!(rt; history.rows_before(3) == 0 && history.rows_before(5) == 1);
    assert!(rt; !history.is_still_since(5) && history.is_still_since(6));
    Ok(())
}
