//! That no worker goes to a variable while another is at one from which it follows.

use crate::call::{Case, ended};
use crate::rest::rest;
use lasp_workers::Gate;
use std::sync::Wait;
use std::sync::atomic::{AtomicBool, AtomicU32, Ordering};
use std::test::Fail;

/// The number of the variable from which another one follows.
const UPSTREAM: u8 = 2;

/// How often a worker rests there: long enough for the other one to come by, and much shorter than it waits.
const RESTS: u32 = 40;

/// A gate that sees whether it is asked for the other variable again and again while a worker is upstream. Once it may be, since who asks may have looked just before.
#[derive(Drop)]
struct Upstream<'a, R> {
    rt: &'a R,
    visits: AtomicU32,
    is_inside: AtomicBool,
    /// How often it was asked for the other variable in this visit.
    asked: AtomicU32,
    is_asked_again: AtomicBool,
}

impl<R> Upstream<'_, R> {
    /// Whether a worker is upstream, where one asks for the other variable.
    fn is_seen_inside(&self) -> bool {
        let is_inside = self.is_inside.load(Ordering::SeqCst);
        if is_inside && self.asked.fetch_add(1, Ordering::SeqCst) > 0 {
            self.is_asked_again.store(true, Ordering::SeqCst);
        }
        is_inside
    }
}

impl<R: Wait> Gate for Upstream<'_, R> {
    fn pass(&self, _worker: u32, _node: u8, var: u8) {
        if var != UPSTREAM {
            return;
        }
        for _ in 0..RESTS {
            rest(self.rt);
        }
    }

    fn admits(&self, _worker: u32, _node: u8, var: u8) -> bool {
        if var != UPSTREAM {
            return !self.is_seen_inside();
        }
        self.visits.fetch_add(1, Ordering::SeqCst);
        self.asked.store(0, Ordering::SeqCst);
        self.is_inside.store(true, Ordering::SeqCst);
        true
    }

    fn leaves(&self, _worker: u32, _node: u8, var: u8) {
        if var == UPSTREAM {
            self.is_inside.store(false, Ordering::SeqCst);
        }
    }

    fn keeps_out(&self, _worker: u32, _node: u8, var: u8) -> bool {
        var != UPSTREAM && self.is_seen_inside()
    }
}

/// Stretches in which a variable lags, and one that follows from it lags by its other input, too.
const ADDS: Case = Case {
    words: "run graph script 2",
    graph: r#"[["a","orset"],["b","orset"],["m","map","a","abs"],["u","union","m","b"]]"#,
    script: r#"[["nodes",1],["add",0,"a",1],["add",0,"b",2],["settle"],["add",0,"a",3],["add",0,"b",4],["settle"],["add",0,"a",5],["add",0,"b",6],["print",0,"u"]]"#,
    printed: "0 u [1,2,3,4,5,6]\nknown 0 6\n",
    is_whole: true,
};

#[test]
fn no_worker_goes_to_what_follows_from_anothers_variable(rt: HostRuntime) -> Result<(), Fail> {
    let gate = Upstream {
        rt: &rt,
        visits: AtomicU32::new(0),
        is_inside: AtomicBool::new(false),
        asked: AtomicU32::new(0),
        is_asked_again: AtomicBool::new(false),
    };
    let (status, printed) = ended(&rt, rt.alloc(), ADDS, &gate)?;
    assert_eq!(rt; status, 0);
    assert!(rt; ADDS.allows(printed.as_slice()));
    assert!(rt; gate.visits.load(Ordering::SeqCst) > 2);
    assert_eq!(rt; gate.is_inside.load(Ordering::SeqCst), false);
    assert_eq!(rt; gate.is_asked_again.load(Ordering::SeqCst), false);
    Ok(())
}
