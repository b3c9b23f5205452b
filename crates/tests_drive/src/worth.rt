//! That workers are called the more rarely, the more often one of them did alone what a stretch left.

use crate::call::{Case, ended};
use lasp_workers::Gate;
use std::sync::atomic::{AtomicU32, Ordering};
use std::test::Fail;

/// A gate that counts the jobs.
#[derive(Drop)]
struct Counting {
    passed: AtomicU32,
}

impl Gate for Counting {
    fn pass(&self, _worker: u32, _node: u8, _var: u8) {
        self.passed.fetch_add(1, Ordering::SeqCst);
    }
}

/// Twenty-four stretches, each of which leaves one job.
const ADDS: Case = Case {
    words: "run graph script 2",
    graph: r#"[["a","orset"],["s","fold","a","sum","itself"]]"#,
    script: r#"[["nodes",1],["add",0,"a",1],["settle"],["add",0,"a",2],["settle"],["add",0,"a",3],["settle"],["add",0,"a",4],["settle"],["add",0,"a",5],["settle"],["add",0,"a",6],["settle"],["add",0,"a",7],["settle"],["add",0,"a",8],["settle"],["add",0,"a",9],["settle"],["add",0,"a",10],["settle"],["add",0,"a",11],["settle"],["add",0,"a",12],["settle"],["add",0,"a",13],["settle"],["add",0,"a",14],["settle"],["add",0,"a",15],["settle"],["add",0,"a",16],["settle"],["add",0,"a",17],["settle"],["add",0,"a",18],["settle"],["add",0,"a",19],["settle"],["add",0,"a",20],["settle"],["add",0,"a",21],["settle"],["add",0,"a",22],["settle"],["add",0,"a",23],["settle"],["add",0,"a",24],["settle"],["print",0,"s"]]"#,
    printed: "0 s 300\nknown 0 24\n",
    is_whole: true,
};

/// Four calls, and those behind which four, five and six are left out.
const CALLS: u32 = 7;

/// Four stretches that leave a job each, and between them three in which no node changes.
const SENDS: Case = Case {
    words: "run graph script 2",
    graph: r#"[["a","orset"],["s","fold","a","sum","itself"]]"#,
    script: r#"[["nodes",1],["add",0,"a",1],["settle"],["add",0,"a",2],["settle"],["add",0,"a",3],["settle"],["send",0],["settle"],["send",0],["settle"],["send",0],["settle"],["add",0,"a",4],["print",0,"s"]]"#,
    printed: "0 s 10\nknown 0 4\n",
    is_whole: true,
};

#[test]
fn workers_are_called_rarely_where_they_never_meet(rt: HostRuntime) -> Result<(), Fail> {
    // a stretch in which no node changes calls nobody, so the last one of the second case is the fourth that does
    for (case, calls) in [(ADDS, CALLS), (SENDS, 4)] {
        let gate = Counting {
            passed: AtomicU32::new(0),
        };
        let (status, printed) = ended(&rt, rt.alloc(), case, &gate)?;
        assert_eq!(rt; status, 0);
        assert!(rt; case.allows(printed.as_slice()));
        assert_eq!(rt; gate.passed.load(Ordering::SeqCst), calls);
    }
    Ok(())
}
