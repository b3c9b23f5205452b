//! The network between replicas.

ghost use Rattle.std.specs.Prelude.{◌≡◌, ◌+◌, ◌<◌, ◌≤◌, ◌^◌, [], Err, Some, IfOk, OnOk, OnErr, length, slice_get};
ghost use Rattle.lasp_gossip.specs.Prelude.{arc_value, spelled, size_of, network, with_sent};
ghost use Rattle.lasp_gossip.specs.declared.refused.SendRefused.TheVariants as refused;

use super::refused::SendRefused;
use super::tally::Tally;
use lasp_wire::Message;
use std::alloc::{AllocError, Global};
use std::marker::Model;
use std::sync::Arc;

/// All that was sent, under numbers from 0 on, and the most bytes that it may have together. It is seen as this limit and the list of the messages.
/// The messages are kept as values beside a bound of their bytes, which nobody writes, and counts only where the bound passes the limit.
#[derive(Drop)]
pub struct Network {
    messages: Vec<Arc<Message>>,
    tally: Tally,
    limit: u64,
}

impl Model for Network {
    ghost use Rattle.std.specs.Prelude.{map};
    ghost use Rattle.std.specs.Arc.{arc_value};
    ghost use Rattle.lasp_gossip.specs.Network.{Network, network, coded_network};
    ghost use Rattle.lasp_gossip.specs.Tally.{IsTally};

    ghost Value = { Network };

    ghost coded = { coded_network };

    ghost view = { λ a. network a.limit (map arc_value a.messages.items) };

    ghost invariant = { λ a. IsTally (map arc_value a.messages.items) a.limit a.tally.counted a.tally.size a.tally.most };
}

impl Network {
    /// A network on which nothing was sent, and on which all messages together may have so many bytes. It takes no memory.
    pub fn new(alloc: Global, limit: u64) -> Network
        ensures { result ≡ network limit [] }
    {
        Network {
            messages: Vec::new(alloc),
            tally: Tally::new(),
            limit,
        }
    }

    /// Sends a message, and answers its number. Its bytes count. It costs a step for each source, and shares the rows; near the limit it costs what `encoded_len` does of each message that wasn't counted yet. After a refusal nothing was sent.
    pub fn send(&mut self, m: Message) -> Result<u32, SendRefused>
        requires few { length self.old.sent < 2 ^ 32 }
        ensures ok { OnOk result (self.new ≡ with_sent self.old m) }
        ensures number { IfOk result (λ number. number ≡ length self.old.sent) }
        ensures room { OnOk result (size_of self.old.sent + length (spelled m) ≤ self.old.limit) }
        ensures full { result ≡ Err refused.NetworkFull → self.old.limit < size_of self.old.sent + length (spelled m) }
        ensures err { OnErr result (self.new ≡ self.old) }
    {
        self.messages.reserve(1)?;
        let message = Arc::new(*self.messages.allocator(), m)?;
        self.tally.take(&self.messages, &message, self.limit)?;
        let number = self.messages.len() as u32;
        self.messages.push_reserved(message);
        Ok(number)
    }

    /// The message that was sent under a number, shared with all who receive it. It takes no memory.
    pub fn receive(&self, number: u32) -> Result<Arc<Message>, AllocError>
        requires { number < length self.now.sent }
        ensures message { IfOk result (λ m. slice_get self.now.sent number ≡ Some (arc_value m)) }
    {
        Arc::try_clone(&self.messages[number as usize])
    }

    /// The number of messages that were sent, at most the limit, since each has a byte at least.
    pub fn len(&self) -> u64
        ensures exact { result ≡ length self.now.sent }
        ensures few { length self.now.sent ≤ self.now.limit }
    {
        self.messages.len() as u64
    }

    /// The bytes of all messages together. It costs what `encoded_len` does of each message that wasn't counted yet.
    pub fn size(&self) -> Result<u64, AllocError>
        ensures exact { IfOk result (λ size. size ≡ size_of self.now.sent) }
        ensures within { IfOk result (λ size. size ≤ self.now.limit) }
    {
        self.tally.exact(&self.messages)
    }
}
