//! Sets and counters.

ghost use Rattle.std.specs.Prelude.{◌≡◌, ◌≢◌, ◌<◌, ◌↔◌, IfOk, OnOk, IsTrue, Err, length};
ghost use Rattle.model_functions.specs.Map.{mapped};
ghost use Rattle.model_sets.specs.Equations.{map_set};
ghost use Rattle.model_sets.specs.Rows.{join, put, remove_delta};
ghost use Rattle.model_states.specs.Content.{row_limit};
ghost use Rattle.lasp_value.specs.Value.{val_of};
ghost use Rattle.model_states.specs.Counts.{inc_delta};
ghost use Rattle.lasp_fns.specs.Stored.{ops_of};
ghost use Rattle.lasp_setops.specs.Width.{IsSetOfWidth};
ghost use Rattle.lasp_setops.specs.declared.refused.SetRefused.TheVariants as refused;

use lasp_fns::StoredMap;
use lasp_logset::{Entry, OrSet};
use lasp_setops::{SetRefused, map_set, union_sets};
use lasp_state::GCount;
use lasp_value::Value;
use std::alloc::{AllocError, Global};

/// `lasp_logset::OrSet::add`. The allocator is there for wrong bodies.
pub fn put_row(_alloc: Global, set: &mut OrSet, row: &Entry) -> Result<(), AllocError>
    ensures ok { OnOk result (set.new ≡ put row.now set.old) }
{
    set.add(row.try_clone()?)
}

/// A remove: `lasp_logset::OrSet::remove_delta`, joined in. The allocator is there for wrong bodies.
pub fn remove(_alloc: Global, set: &mut OrSet, value: &Value) -> Result<(), AllocError>
    ensures ok { OnOk result (set.new ≡ join set.old (remove_delta (val_of value.now) set.old)) }
{
    let delta = set.remove_delta(value)?;
    set.join_in(&delta)?;
    Ok(())
}

/// `lasp_logset::OrSet::join_in`.
pub fn join(set: &mut OrSet, other: &OrSet) -> Result<bool, AllocError>
    ensures grew { IfOk result (λ grew. IsTrue grew ↔ (set.new ≢ set.old)) }
{
    set.join_in(other)
}

/// `lasp_setops::union_sets`.
pub fn union(x: &OrSet, y: &OrSet) -> Result<OrSet, SetRefused>
    ensures ok { IfOk result (λ s. s ≡ join x.now y.now) }
    ensures too_many { result ≡ Err refused.TooManyRows → row_limit < length (join x.now y.now) }
{
    union_sets(x, y)
}

/// `lasp_setops::map_set`.
pub fn image(alloc: Global, f: &StoredMap, x: &OrSet) -> Result<OrSet, AllocError>
    requires width { IsSetOfWidth 16 x.now }
    ensures { IfOk result (λ s. s ≡ map_set (mapped (ops_of f.now)) x.now) }
{
    map_set(alloc, f, x)
}

/// `lasp_state::GCount::inc_delta`.
pub fn count_more(counts: &GCount, replica: u8, by: u32) -> Result<GCount, AllocError>
    requires { replica < length counts.now }
    ensures { IfOk result (λ d. d ≡ inc_delta counts.now replica by) }
{
    counts.inc_delta(replica, by)
}
