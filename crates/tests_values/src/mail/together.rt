//! A sender and a receiver, each in a thread of its own.
ghost use Rattle.std.specs.Prelude.{◌≡◌, Some, length};
ghost use Rattle.std.specs.Thread.{IsSync};

use super::letters::{Letter, receive, send};
use lasp_mail::{Inlet, Mailbox, Outlet};
use std::alloc::{AllocError, Global};
use std::sync::Wait;
use std::test::Fail;
use std::thread::{Threads, join};

/// Sends letters in another thread, while this one receives them.
fn exchange<R: Threads + Wait + Sync>(
    rt: &R,
    mailbox: &Mailbox<Letter>,
    o: Outlet<Letter>,
    i: Inlet<Letter>,
    put: u32,
    taken: u32,
) -> (Outlet<Letter>, (Inlet<Letter>, bool))
    requires ends { (o.of ≡ mailbox.now) × (i.of ≡ mailbox.now) }
    requires new { (mailbox.now.frame ≡ Some 7) × (length o.put ≡ 0) }
    ensures { (result.0.of ≡ mailbox.now) × (result.1.0.of ≡ mailbox.now) }
{
    join(
        rt,
        move || -> Outlet<Letter>
            requires { IsSync R.row × (o.of ≡ mailbox.now) × (mailbox.now.frame ≡ Some 7) × (length o.put ≡ 0) }
            ensures { result.of ≡ mailbox.entry.now }
        { send(rt, mailbox, o, put) },
        move || -> (Inlet<Letter>, bool)
            requires { i.of ≡ mailbox.now }
            ensures { result.0.of ≡ mailbox.entry.now }
        { receive(rt, mailbox, i, taken) },
    )
}

/// Whether the first letters of one thread come to another one in order; the others are dropped with the mailbox.
fn comes_across<R: Threads + Wait + Sync>(
    rt: &R,
    alloc: Global,
    put: u32,
    taken: u32,
) -> Result<bool, AllocError> {
    let (mailbox, o, i) = Mailbox::new(alloc, &Letter { topic: 7, text: 0 })?;
    let (o, (i, in_order)) = exchange(rt, &mailbox, o, i, put, taken);
    mailbox.close(o, i);
    Ok(in_order)
}

#[test]
fn what_one_thread_puts_comes_to_another_in_order(rt: HostRuntime) -> Result<(), Fail> {
    assert!(rt; comes_across(&rt, rt.alloc(), 5000, 4900)?);
    Ok(())
}
