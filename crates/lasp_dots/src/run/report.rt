//! What each replica knows and keeps at the end.

ghost use Rattle.std.specs.Prelude.{◌≡◌, ◌++◌, OnOk, string_bytes};
ghost use Rattle.lasp_dots.specs.Prelude.{dot_known, dot_sizes};

use super::replicas::DotReplicas;
use super::text::{push_known, push_size};
use std::alloc::AllocError;

/// Appends a line for each node: what it knows.
pub(crate) fn push_all_known(text: &mut String, replicas: &DotReplicas) -> Result<(), AllocError>
    ensures { OnOk result (string_bytes text.new ≡ string_bytes text.old ++ dot_known 0 replicas.now.nodes) }
{
    for p in 0..replicas.len() {
        push_known(text, p as u64, replicas.node(p))?;
    }
    Ok(())
}

/// Appends a line for each node: how many pairs it keeps.
pub(crate) fn push_all_sizes(text: &mut String, replicas: &DotReplicas) -> Result<(), AllocError>
    ensures { OnOk result (string_bytes text.new ≡ string_bytes text.old ++ dot_sizes 0 replicas.now.nodes) }
{
    for p in 0..replicas.len() {
        push_size(text, p as u64, replicas.node(p))?;
    }
    Ok(())
}
