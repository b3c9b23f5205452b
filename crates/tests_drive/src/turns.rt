//! That workers take turns at a variable.

use crate::call::{Case, ended};
use crate::rest::rest;
use lasp_workers::Gate;
use std::sync::Wait;
use std::sync::atomic::{AtomicBool, AtomicU32, Ordering};
use std::test::Fail;

/// A gate that sees whether two workers are at the one derived variable at once, and whether a worker has another number than 1 to 8.
#[derive(Drop)]
struct Turnstile<'a, R> {
    rt: &'a R,
    inside: AtomicU32,
    passed: AtomicU32,
    is_crowded: AtomicBool,
    is_unknown: AtomicBool,
}

impl<R: Wait> Gate for Turnstile<'_, R> {
    fn pass(&self, worker: u32, _node: u8, _var: u8) {
        self.passed.fetch_add(1, Ordering::SeqCst);
        if worker < 1 || 8 < worker {
            self.is_unknown.store(true, Ordering::SeqCst);
        }
        // (long enough for others to come by, and much shorter than they wait)
        rest(self.rt);
    }

    fn admits(&self, _worker: u32, _node: u8, _var: u8) -> bool {
        if self.inside.fetch_add(1, Ordering::SeqCst) > 0 {
            self.is_crowded.store(true, Ordering::SeqCst);
        }
        true
    }

    fn leaves(&self, _worker: u32, _node: u8, _var: u8) {
        self.inside.fetch_sub(1, Ordering::SeqCst);
    }
}

/// Stretches of one addition each, behind which one variable of one node lags.
const ADDS: Case = Case {
    words: "run graph script 8",
    graph: r#"[["a","orset"],["s","fold","a","sum","itself"]]"#,
    script: r#"[["nodes",1],["add",0,"a",1],["settle"],["add",0,"a",2],["settle"],["add",0,"a",3],["settle"],["add",0,"a",4],["settle"],["add",0,"a",5],["print",0,"s"]]"#,
    printed: "0 s 15\nknown 0 5\n",
    is_whole: true,
};

#[test]
fn one_worker_at_a_time_is_at_a_variable(rt: HostRuntime) -> Result<(), Fail> {
    let gate = Turnstile {
        rt: &rt,
        inside: AtomicU32::new(0),
        passed: AtomicU32::new(0),
        is_crowded: AtomicBool::new(false),
        is_unknown: AtomicBool::new(false),
    };
    let (status, printed) = ended(&rt, rt.alloc(), ADDS, &gate)?;
    assert_eq!(rt; status, 0);
    assert!(rt; ADDS.allows(printed.as_slice()));
    assert!(rt; gate.passed.load(Ordering::SeqCst) > 0);
    assert_eq!(rt; gate.inside.load(Ordering::SeqCst), 0);
    assert_eq!(rt; gate.is_crowded.load(Ordering::SeqCst), false);
    assert_eq!(rt; gate.is_unknown.load(Ordering::SeqCst), false);
    Ok(())
}
