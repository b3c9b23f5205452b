//! A read that waits, as a future.

use crate::cores::{await_total, core_of, count};
use crate::library::graph_of;
use crate::wrong::Wrong;
use futures::executor::block_on;
use futures::task::Source;
use lasp_core::{Core, ReadNo, Try, Watched, states_are_those_after_the_entries};
use lasp_fns::Library;
use lasp_reads::ReadFuture;
use lasp_state::State;
use std::alloc::{AllocError, AllocGlobal, Global};
use std::random::RandomSource;
use std::sync::{Arc, Wait};
use std::test::Fail;

/// A core that is in another's hands at the first few looks.
#[derive(Drop)]
struct Coy<'a> {
    core: &'a Core,
    misses: u64,
    looks: u64,
}

impl Watched for Coy<'_> {
    ghost use Rattle.model_journal.specs.Entry.{Frame};
    ghost use Rattle.lasp_core.specs.Core.{IsOpen, state_after};

    ghost Place = { Frame };

    ghost place = { λ s. s.core.now.frame };

    ghost misses = { λ s. s.misses };

    ghost looks = { λ s. s.looks };

    ghost now = { λ s x. state_after s.core.now.frame s.core.now.entries x };

    ghost IsFresh = { λ s. Unit {0} };

    ghost IsOpen = { λ s r. IsOpen s.core.now.frame s.core.now.entries r };

    fn try_poll(&mut self, r: &ReadNo) -> Result<Option<Arc<State>>, Try<AllocError>> {
        if self.misses < 3 {
            self.misses += 1;
            return Err(Try::Busy);
        }
        if self.looks > 1000 {
            return Err(Try::Refused(AllocError));
        }
        states_are_those_after_the_entries();
        match self.core.poll_read(r) {
            Ok(found) => {
                self.looks += 1;
                Ok(found)
            }
            Err(error) => Err(Try::Refused(error)),
        }
    }
}

/// What a read finds of a core that is in another's hands at first.
fn found_late<R>(rt: &R, alloc: Global) -> Result<Arc<State>, Wrong>
where
    R: Wait + RandomSource + AllocGlobal,
{
    let lib = Library::new(alloc);
    let graph = graph_of(alloc, r#"[["c","counter"]]"#, &lib)?;
    let mut core = core_of(alloc, &graph)?;
    count(&mut core, 0, 7)?;
    let read = await_total(&mut core, 0, 5)?;
    let coy = Coy {
        core: &core,
        misses: 0,
        looks: 0,
    };
    let source = Source::new();
    Ok(block_on(rt, ReadFuture::new(coy, &source, read))??)
}

#[test]
fn a_read_asks_again_while_its_replica_is_in_anothers_hands(rt: HostRuntime) -> Result<(), Fail> {
    let state = found_late(&rt, rt.alloc()).map_err(|_| "a call was refused")?;
    assert!(rt; state.size() == 0);
    Ok(())
}
