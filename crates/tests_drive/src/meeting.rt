//! That two workers are in their jobs at once, where the program runs a script by two, and that each has a number and jobs of all nodes.

use crate::call::{Case, ended};
use crate::rest::rest;
use lasp_workers::Gate;
use std::sync::Wait;
use std::sync::atomic::{AtomicBool, AtomicU32, Ordering};
use std::test::Fail;

/// How often a worker in its job looks for another, at most: five times as often as one that is kept out of a variable asks before it is let in.
const MOST_LOOKS: u32 = 10_000;

/// A gate that holds each worker in its job until two are in theirs at once, or it has looked for another often enough. It notes who came, and whether anybody had a job of the last node.
#[derive(Drop)]
struct Meeting<'a, R> {
    rt: &'a R,
    last: u8,
    inside: AtomicU32,
    met: AtomicBool,
    first_came: AtomicBool,
    second_came: AtomicBool,
    another_came: AtomicBool,
    last_had_a_job: AtomicBool,
}

impl<'a, R> Meeting<'a, R> {
    fn new(rt: &'a R, nodes: u8) -> Meeting<'a, R> {
        Meeting {
            rt,
            last: nodes.saturating_sub(1),
            inside: AtomicU32::new(0),
            met: AtomicBool::new(false),
            first_came: AtomicBool::new(false),
            second_came: AtomicBool::new(false),
            another_came: AtomicBool::new(false),
            last_had_a_job: AtomicBool::new(false),
        }
    }

    fn note(&self, worker: u32, node: u8) {
        let came = match worker {
            1 => &self.first_came,
            2 => &self.second_came,
            _ => &self.another_came,
        };
        came.store(true, Ordering::SeqCst);
        if node == self.last {
            self.last_had_a_job.store(true, Ordering::SeqCst);
        }
    }

    /// Whether two were in their jobs at once, and no more than they came.
    fn were_two(&self) -> bool {
        self.met.load(Ordering::SeqCst)
            && self.first_came.load(Ordering::SeqCst)
            && self.second_came.load(Ordering::SeqCst)
            && !self.another_came.load(Ordering::SeqCst)
    }
}

impl<R: Wait> Gate for Meeting<'_, R> {
    fn pass(&self, worker: u32, node: u8, _var: u8) {
        self.note(worker, node);
        self.inside.fetch_add(1, Ordering::SeqCst);
        for _ in 0..MOST_LOOKS {
            if self.met.load(Ordering::SeqCst) {
                break;
            }
            if self.inside.load(Ordering::SeqCst) > 1 {
                self.met.store(true, Ordering::SeqCst);
            }
            rest(self.rt);
        }
        self.inside.fetch_sub(1, Ordering::SeqCst);
    }
}

/// Two sets and their union.
const UNION: &str = r#"[["a","orset"],["b","orset"],["u","union","a","b"]]"#;

/// A node that adds to both sets, and removes one value.
const ADDS: &str =
    r#"[["nodes",1],["add",0,"a",1],["add",0,"b",2],["remove",0,"a",1],["print",0,"u"]]"#;

/// Numbers of nodes, and calls by two workers. While a worker is held in its job of a variable, that stays unclean, so the other finds a job.
const CASES: [(u8, Case); 6] = [
    (
        1,
        Case {
            words: "run graph script 2",
            graph: r#"[["a","orset"],["m","map","a","abs"],["n","map","a","neg"]]"#,
            script: r#"[["nodes",1],["add",0,"a",1],["settle"],["print",0,"m"]]"#,
            printed: "0 m [1]\nknown 0 1\n",
            is_whole: true,
        },
    ),
    (
        1,
        Case {
            words: "run graph script 2",
            graph: UNION,
            script: ADDS,
            printed: "0 u [2]\nknown 0 3\n",
            is_whole: true,
        },
    ),
    (
        2,
        Case {
            words: "run graph script 2",
            graph: r#"[["a","orset"],["s","fold","a","sum","itself"]]"#,
            script: r#"[["nodes",2],["add",0,"a",7],["add",1,"a",7],["sync"],["print",0,"s"],["remove",0,"a",7],["print",0,"s"]]"#,
            printed: "0 s 7\n0 s 0\nknown 0 2 1\nknown 1 1 1\n",
            is_whole: true,
        },
    ),
    (
        3,
        Case {
            words: "run graph script 2",
            graph: r#"[["shelf","orset"],["cellar","orset"],["both","product","shelf","cellar"],["same","filter","both","key_match"],["kept","map","same","first"]]"#,
            script: r#"[["nodes",3],["add",0,"shelf",[1,"tea"]],["add",1,"cellar",1],["add",2,"cellar",2],["sync"],["print",2,"kept"],["remove",0,"shelf",[1,"tea"]],["sync"],["print",2,"kept"]]"#,
            printed: "2 kept [[1,\"tea\"]]\n2 kept []\nknown 0 2 1 1\nknown 1 2 1 1\nknown 2 2 1 1\n",
            is_whole: true,
        },
    ),
    (
        1,
        Case {
            words: "trace graph script 2",
            graph: UNION,
            script: ADDS,
            printed: "0 u [2]\nknown 0 3\n0 0 0 update a 1\n",
            is_whole: false,
        },
    ),
    (
        4,
        Case {
            words: "load 1 200 2",
            graph: "",
            script: "",
            printed: "load 1 200\na 51\nb 43\nc 30768\nu 91\ne 51\ni 3\nn 91\ns 48696\nknown 0 39 56 54 51\nknown 1 39 56 54 51\nknown 2 39 56 54 51\nknown 3 39 56 54 51\n",
            is_whole: true,
        },
    ),
];

#[test]
fn two_workers_are_in_their_jobs_at_once(rt: HostRuntime) -> Result<(), Fail> {
    for (nodes, case) in CASES {
        let gate = Meeting::new(&rt, nodes);
        let (status, printed) = ended(&rt, rt.alloc(), case, &gate)?;
        assert_eq!(rt; status, 0);
        assert!(rt; case.allows(printed.as_slice()));
        assert!(rt; gate.were_two());
        assert!(rt; gate.last_had_a_job.load(Ordering::SeqCst));
    }
    Ok(())
}
