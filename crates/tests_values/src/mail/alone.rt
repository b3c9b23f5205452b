//! Both ends of a mailbox in one thread.
use super::letters::{Letter, look, put};
use lasp_mail::Mailbox;
use std::alloc::{AllocError, Global};
use std::sync::Wait;
use std::test::Fail;

/// What looks at a mailbox give: one before three letters are put, and four after.
fn five_looks<R: Wait>(rt: &R, alloc: Global) -> Result<[Option<(u64, u32)>; 5], AllocError> {
    let (mailbox, mut o, mut i) = Mailbox::new(alloc, &Letter { topic: 7, text: 0 })?;
    let early = look(rt, &mailbox, &mut i);
    put(rt, &mailbox, &mut o, 0);
    put(rt, &mailbox, &mut o, 1);
    put(rt, &mailbox, &mut o, 2);
    let first = look(rt, &mailbox, &mut i);
    let second = look(rt, &mailbox, &mut i);
    let third = look(rt, &mailbox, &mut i);
    let late = look(rt, &mailbox, &mut i);
    mailbox.close(o, i);
    Ok([early, first, second, third, late])
}

#[test]
fn items_come_in_order_each_once(rt: HostRuntime) -> Result<(), Fail> {
    let looks = five_looks(&rt, rt.alloc())?;
    assert!(rt; looks == [None, Some((0, 0)), Some((1, 1)), Some((2, 2)), None]);
    Ok(())
}
