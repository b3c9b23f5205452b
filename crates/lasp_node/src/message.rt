//! What a replica core sends.

ghost use Rattle.std.specs.Prelude.{◌≡◌, IfOk};
ghost use Rattle.lasp_node.specs.Prelude.{message_at, peer_of};
ghost use Rattle.model_journal.specs.Journal as journal;

use lasp_core::Core;
use lasp_wire::Message;
use std::alloc::{AllocError, Global};

/// The message of a core: its counts, and its sources in their order, each by its name and kind. It copies names and counts, and shares the states' rows.
pub fn message_of(alloc: Global, core: &Core) -> Result<Message, AllocError>
    ensures { IfOk result (λ m. m ≡ message_at (journal.graph core.now.frame core.now.entries) (peer_of core.now.frame core.now.entries)) }
{
    core.message(alloc)
}
