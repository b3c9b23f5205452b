//! Workers over cores.

use crate::cores::{add, core_of, remove};
use crate::library::{graph_of, library};
use crate::wrong::Wrong;
use lasp_core::Core;
use lasp_fns::{Library, StepLib};
use lasp_workers::{NoGate, Replicas, work};
use std::alloc::Global;
use std::sync::Wait;
use std::sync::atomic::AtomicBool;
use std::test::Fail;

/// Settles a core by one worker, and tells how many jobs it finished.
fn settle<R: Wait>(
    rt: &R,
    alloc: Global,
    core: Core,
    steps: &mut StepLib,
) -> Result<(Core, u64), Wrong> {
    let mut replicas = Replicas::new(alloc);
    if replicas.push(0, core).is_err() {
        return Err(Wrong);
    }
    let more = AtomicBool::new(false);
    let Ok(finished) = work(rt, alloc, 1, &mut replicas, steps, &NoGate, &more) else {
        return Err(Wrong);
    };
    let (_, core) = replicas.pop().ok_or(Wrong)?;
    Ok((core, finished))
}

/// The ticks after a hundred values were added and settled, after one more, and after that was removed; and the jobs that were finished.
fn ticks<R: Wait>(rt: &R, alloc: Global) -> Result<([u64; 3], [u64; 3]), Wrong> {
    let lib = library(alloc)?;
    let graph = graph_of(alloc, r#"[["a","orset"],["m","map","a","abs"]]"#, &lib)?;
    let mut steps = StepLib::new(&lib);
    let mut core = core_of(alloc, &graph)?;
    for n in 0..100 {
        add(&mut core, 0, n)?;
    }
    let (mut core, first) = settle(rt, alloc, core, &mut steps)?;
    let hundred = steps.ticks();
    add(&mut core, 0, 100)?;
    let (mut core, second) = settle(rt, alloc, core, &mut steps)?;
    let one = steps.ticks();
    remove(&mut core, 0, 100)?;
    let (_, third) = settle(rt, alloc, core, &mut steps)?;
    Ok(([hundred, one, steps.ticks()], [first, second, third]))
}

#[test]
fn a_worker_calls_functions_for_changed_rows_alone(rt: HostRuntime) -> Result<(), Fail> {
    let (ticks, finished) = ticks(&rt, rt.alloc()).map_err(|_| "a call was refused")?;
    assert!(rt; ticks == [100, 101, 102]);
    assert!(rt; finished == [1, 1, 1]);
    Ok(())
}
