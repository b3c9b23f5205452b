//! How many bytes the messages on a network have: known exactly of the first ones, and a bound of the others, which are counted once that is near the limit.

ghost use Rattle.std.specs.Prelude.{◌≡◌, ◌+◌, ◌-◌, ◌^◌, ◌<◌, ◌≤◌, ◌++◌, ◌∷◌, [], Err, IfOk, OnOk, OnErr, length, map};
ghost use Rattle.lasp_gossip.specs.Prelude.{arc_value, spelled, size_of};
ghost use Rattle.lasp_gossip.specs.Tally.{IsTally};
ghost use Rattle.lasp_gossip.specs.declared.refused.SendRefused.TheVariants as refused;

use super::refused::SendRefused;
use lasp_wire::{Message, encoded_len, most_len};
use std::alloc::AllocError;
use std::sync::Arc;

#[derive(Drop)]
pub(crate) struct Tally {
    /// How many messages were counted, the first ones.
    pub(crate) counted: usize,
    /// Their bytes.
    pub(crate) size: u64,
    /// A number that is at least the bytes of the others.
    pub(crate) most: u64,
}

impl Tally {
    /// The tally of no messages.
    pub(crate) fn new() -> Tally
        ensures counted { result.counted ≡ 0 }
        ensures size { result.size ≡ 0 }
        ensures most { result.most ≡ 0 }
    {
        Tally {
            counted: 0,
            size: 0,
            most: 0,
        }
    }

    /// Takes a message behind the others. It costs a step for each source, and where a bound of all bytes passes the limit, what `encoded_len` does of each message that wasn't counted yet.
    pub(crate) fn take(
        &mut self,
        messages: &[Arc<Message>],
        m: &Message,
        limit: u64,
    ) -> Result<(), SendRefused>
        requires tally { IsTally (map arc_value messages.now) limit self.old.counted self.old.size self.old.most }
        requires few { length messages.now < 2 ^ 32 }
        ensures ok { OnOk result (IsTally (map arc_value messages.now ++ m.now ∷ []) limit self.new.counted self.new.size self.new.most) }
        ensures err { OnErr result (IsTally (map arc_value messages.now) limit self.new.counted self.new.size self.new.most) }
        ensures full { result ≡ Err refused.NetworkFull → limit < size_of (map arc_value messages.now) + length (spelled m.now) }
    {
        let most = most_len(m);
        if most <= limit - self.size - self.most {
            self.most += most;
            return Ok(());
        }
        let all = self.exact(messages)?;
        self.counted = messages.len();
        self.size = all;
        self.most = 0;
        let size = encoded_len(m)?;
        if size > limit - all {
            return Err(SendRefused::NetworkFull);
        }
        self.counted += 1;
        self.size += size;
        Ok(())
    }

    /// The bytes of all messages. It costs what `encoded_len` does of each that wasn't counted yet.
    pub(crate) fn exact(&self, messages: &[Arc<Message>]) -> Result<u64, AllocError>
        requires { IsTally (map arc_value messages.now) (2 ^ 64 - 1) self.now.counted self.now.size self.now.most }
        ensures { IfOk result (λ size. size ≡ size_of (map arc_value messages.now)) }
    {
        let rest = bytes_of(&messages[self.counted..])?;
        Ok(self.size + rest)
    }
}

/// The bytes of messages.
fn bytes_of(messages: &[Arc<Message>]) -> Result<u64, AllocError>
    requires { size_of (map arc_value messages.now) ≤ 2 ^ 64 - 1 }
    ensures { IfOk result (λ size. size ≡ size_of (map arc_value messages.now)) }
{
    let mut size = 0;
    for message in messages {
        size += encoded_len(message)?;
    }
    Ok(size)
}
