//! A body for the tests, and what the two ends do with it.
ghost use Rattle.std.specs.Prelude.{◌≡◌, ◌+◌, Some, length};

use lasp_mail::{Framed, Inlet, Item, Mailbox, Outlet};
use std::sync::Wait;
use std::thread::yield_now;

/// A letter on one topic, which is its frame.
#[derive(Drop, Clone, Copy)]
pub struct Letter {
    pub topic: u8,
    pub text: u32,
}

impl Framed for Letter {
    type Frame = u8;

    ghost frame = { λ letter. letter.topic };
}

/// Puts the letter that says its own number, as often as it is refused.
pub fn put<R: Wait>(rt: &R, mailbox: &Mailbox<Letter>, o: &mut Outlet<Letter>, number: u32)
    requires of { (o.old.of ≡ mailbox.now) × (mailbox.now.frame ≡ Some 7) }
    requires number { number ≡ length o.old.put }
    ensures { (o.new.of ≡ o.old.of) × (length o.new.put ≡ number + 1) }
{
    let mut item = Item {
        number: number as u64,
        body: Letter {
            topic: 7,
            text: number,
        },
    };
    for _ in rt.forever() {
        match mailbox.put(rt, o, item) {
            Ok(()) => return,
            Err((again, _)) => item = again,
        }
        yield_now();
    }
    unreachable!()
}

/// Puts letters with the numbers from 0 up to the count.
pub fn send<R: Wait>(
    rt: &R,
    mailbox: &Mailbox<Letter>,
    mut o: Outlet<Letter>,
    count: u32,
) -> Outlet<Letter>
    requires { (o.of ≡ mailbox.now) × (mailbox.now.frame ≡ Some 7) × (length o.put ≡ 0) }
    ensures { result.of ≡ mailbox.now }
{
    let mut number = 0;
    while number < count {
        put(rt, mailbox, &mut o, number);
        number += 1;
    }
    o
}

/// The number and the text of the next letter, if there is one.
pub fn look<R: Wait>(rt: &R, mailbox: &Mailbox<Letter>, i: &mut Inlet<Letter>) -> Option<(u64, u32)>
    requires { i.old.of ≡ mailbox.now }
    ensures { i.new.of ≡ i.old.of }
{
    let item = mailbox.take(rt, i)?;
    Some((item.number, item.body.text))
}

/// Takes as many letters as the count says, and tells whether each said its own number.
pub fn receive<R: Wait>(
    rt: &R,
    mailbox: &Mailbox<Letter>,
    mut i: Inlet<Letter>,
    count: u32,
) -> (Inlet<Letter>, bool)
    requires { i.of ≡ mailbox.now }
    ensures { result.0.of ≡ mailbox.now }
{
    let mut number = 0u32;
    let mut in_order = true;
    for _ in rt.forever() {
        if number >= count {
            break;
        }
        match look(rt, mailbox, &mut i) {
            Some(told) => {
                in_order = in_order && told == (number as u64, number);
                number += 1;
            }
            None => yield_now(),
        }
    }
    (i, in_order)
}
