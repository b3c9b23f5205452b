//! Reads that calls released are woken.

use crate::cores::{await_total, core_of, count};
use crate::library::graph_of;
use crate::wrong::Wrong;
use lasp_core::ReadNo;
use lasp_fns::Library;
use lasp_reads::{Wake, wake_released};
use std::alloc::Global;
use std::test::Fail;

/// Tells which reads were woken, as long as it has room for their numbers.
#[derive(Drop)]
struct Bell {
    woken: Vec<u64>,
}

impl Wake for Bell {
    ghost use Rattle.std.specs.Prelude.{Some, vec_capacity};

    ghost woken = { λ b. Some b.woken.items };

    ghost room = { λ b. vec_capacity b.woken };

    fn wake(&mut self, r: &ReadNo) {
        self.woken.push_reserved(r.number());
    }
}

/// Wakes nobody, and tells nothing.
#[derive(Drop)]
struct Silence;

impl Wake for Silence {
    ghost use Rattle.std.specs.Prelude.{None};

    ghost woken = { λ s. None };

    ghost room = { λ s. 0 };

    fn wake(&mut self, _r: &ReadNo) {}
}

/// The numbers of the reads that are woken while a counter goes up to 6 and then to 20.
fn woken(alloc: Global) -> Result<(Vec<u64>, usize), Wrong> {
    let lib = Library::new(alloc);
    let graph = graph_of(alloc, r#"[["c","counter"]]"#, &lib)?;
    let mut core = core_of(alloc, &graph)?;
    for total in [5, 3, 9, 20] {
        await_total(&mut core, 0, total)?;
    }
    let mut bell = Bell {
        woken: Vec::with_capacity(alloc, 4)?,
    };
    let released = count(&mut core, 0, 6)?;
    if released.len() > 2 {
        return Err(Wrong);
    }
    wake_released(&mut bell, &released);
    let first = bell.woken.len();
    let released = count(&mut core, 0, 14)?;
    if released.len() > 2 {
        return Err(Wrong);
    }
    wake_released(&mut bell, &released);
    wake_released(&mut Silence, &released);
    Ok((bell.woken, first))
}

#[test]
fn the_reads_that_a_call_releases_are_woken_in_their_order(rt: HostRuntime) -> Result<(), Fail> {
    let (numbers, first) = woken(rt.alloc()).map_err(|_| "a call was refused")?;
    assert!(rt; numbers.as_slice() == [0, 1, 2, 3].as_slice());
    assert_eq!(rt; first, 2);
    Ok(())
}
