//! That a worker which wasn't admitted to a variable asks whether it still wouldn't be, before it takes a job.

use crate::call::{Case, ended};
use lasp_workers::Gate;
use std::sync::atomic::{AtomicU32, Ordering};
use std::test::Fail;

/// How often the worker is kept out, once it wasn't admitted.
const KEPT_OUT: u32 = 3;

/// A gate that doesn't admit a worker at first, and then keeps it out for a while.
#[derive(Drop)]
struct Refusal {
    asked: AtomicU32,
    asked_again: AtomicU32,
}

impl Gate for Refusal {
    fn pass(&self, _worker: u32, _node: u8, _var: u8) {}

    fn admits(&self, _worker: u32, _node: u8, _var: u8) -> bool {
        self.asked.fetch_add(1, Ordering::SeqCst) > 0
    }

    fn keeps_out(&self, _worker: u32, _node: u8, _var: u8) -> bool {
        self.asked_again.fetch_add(1, Ordering::SeqCst) < KEPT_OUT
    }
}

/// One job for one worker.
const ADD: Case = Case {
    words: "run graph script 1",
    graph: r#"[["a","orset"],["s","fold","a","sum","itself"]]"#,
    script: r#"[["nodes",1],["add",0,"a",7],["print",0,"s"]]"#,
    printed: "0 s 7\nknown 0 1\n",
    is_whole: true,
};

#[test]
fn a_worker_that_waits_asks_before_it_takes_a_job(rt: HostRuntime) -> Result<(), Fail> {
    let gate = Refusal {
        asked: AtomicU32::new(0),
        asked_again: AtomicU32::new(0),
    };
    let (status, printed) = ended(&rt, rt.alloc(), ADD, &gate)?;
    assert_eq!(rt; status, 0);
    assert!(rt; ADD.allows(printed.as_slice()));
    assert_eq!(rt; gate.asked.load(Ordering::SeqCst), 2);
    assert_eq!(rt; gate.asked_again.load(Ordering::SeqCst), KEPT_OUT + 1);
    Ok(())
}
