//! A function whose closure wants memory.

use crate::made::rows;
use lasp_fns::{MapOps, StoredMap};
use lasp_setops::map_set;
use lasp_value::Value;
use std::alloc::AllocError;
use std::test::Fail;

#[test]
fn a_closures_want_of_memory_is_the_functions_and_the_maps(rt: HostRuntime) -> Result<(), Fail> {
    let alloc = rt.alloc();
    let told = {
        let f = |_v: &Value| -> Result<Value, AllocError> { Err(AllocError) };
        let stored = StoredMap::new(MapOps::new(alloc), Box::new(alloc, f)?);
        let x = rows(alloc, &[(1, 1, false)])?;
        (
            stored.call(&Value::Int(1)).is_err(),
            map_set(alloc, &stored, &x).is_err(),
        )
    };
    assert!(rt; told == (true, true));
    Ok(())
}
