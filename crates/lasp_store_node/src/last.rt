//! When a node last sent, and what it then makes of what came since.

ghost use Rattle.std.specs.Prelude.{◌≡◌, IfOk};
ghost use Rattle.lasp_store_node.specs.View.{since, IsBehind};

use lasp_drive::Tail;
use lasp_node::LastSent;
use lasp_wire::Message;
use std::alloc::{AllocError, Global};
use std::sync::Arc;

/// How many entries the journal had then.
pub(crate) fn entries_then(last: &Option<LastSent>) -> Option<u64>
    ensures { result ≡ since last.now }
{
    match last {
        None => None,
        Some(last) => Some(last.entries),
    }
}

/// What came since, behind the message that was sent then.
pub(crate) fn behind(
    alloc: Global,
    last: &Option<LastSent>,
    rows: Option<Message>,
) -> Result<Option<Tail>, AllocError>
    ensures { IfOk result (IsBehind last.now rows) }
{
    match (last, rows) {
        (Some(last), Some(rows)) => Ok(Some(Tail {
            before: last.number,
            rows: Arc::new(alloc, rows)?,
        })),
        _ => Ok(None),
    }
}
