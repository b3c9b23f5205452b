//! Logs: a share stays as it was while the log grows, and reading from a place on gives what came since.

use lasp_log::{Log, Share};
use std::alloc::AllocError;
use std::test::Fail;

#[derive(Drop)]
struct Step {
    number: usize,
}

impl Share for Step {
    fn share(&self) -> Result<Step, AllocError> {
        Ok(Step {
            number: self.number,
        })
    }
}

/// Writes the numbers from the first on, and seals what came after each, or after all.
fn write(
    log: &mut Log<Step>,
    first: usize,
    end: usize,
    seals_each: bool,
) -> Result<(), AllocError> {
    for number in first..end {
        log.push(Step { number })?;
        if seals_each {
            log.seal();
        }
    }
    log.seal();
    Ok(())
}

/// Whether a pass from a place on gives that number and those that follow it, as many as the log has.
fn counts_on(log: &Log<Step>, place: usize) -> bool {
    if place > log.len() {
        return false;
    }
    let mut left = log.since(place);
    for number in place..log.len() {
        if !left.next().is_some_and(|step| step.number == number) {
            return false;
        }
    }
    left.next().is_none()
}

#[test]
fn a_share_stays_while_the_log_grows(rt: HostRuntime) -> Result<(), Fail> {
    let mut log = Log::new(rt.alloc());
    assert!(rt; log.len() == 0 && counts_on(&log, 0) && !counts_on(&log, 1));
    write(&mut log, 0, 700, true)?;
    let past = log.share()?;
    write(&mut log, 700, 1000, false)?;
    log.reserve(50)?;
    write(&mut log, 1000, 1020, true)?;
    assert!(rt; past.len() == 700 && counts_on(&past, 0) && counts_on(&past, 699));
    for place in [0, 1, 255, 256, 511, 512, 699, 700, 999, 1000, 1019, 1020] {
        assert!(rt; counts_on(&log, place));
    }
    assert!(rt; log.len() == 1020);
    assert!(rt; log.at(0).number == 0 && log.at(700).number == 700 && log.at(1019).number == 1019);
    Ok(())
}
