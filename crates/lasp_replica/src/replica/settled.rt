//! Which derived variables have taken in their inputs as they are.

ghost use Rattle.std.specs.Prelude.{◌≡◌, ◌≢◌, ◌<◌, ◌↔◌, IsTrue, ℕ, Some, IfSome, IfNone, length, slice_get, slice_index_or};
ghost use Rattle.lasp_replica.specs.Prelude.{version_before, arc_value, IsClean, frame_of, entries_of, busy_of, growths_at, IsReplica, IsUncleanAt, IsFirstUnclean, IsFreeAt, IsFirstFree, IsNextVar, IsLacking};

use super::Replica;
use crate::process::Process;
use crate::refused::NotYet;

impl Replica {
    /// Whether variable y, if it is derived, has taken in its inputs as they are. It costs a look at each input's last growth.
    pub fn is_clean(&self, y: usize) -> bool
        requires replica { IsReplica self.now }
        requires var { y < length (arc_value self.now.graph) }
        ensures { IsTrue result ↔ (IsUncleanAt self.now y → ⊥) }
    {
        match &self.processes[y] {
            None => true,
            Some(process) => self.are_inputs_still(y, process),
        }
    }

    /// Whether no input of variable y grew since the process last read it.
    fn are_inputs_still(&self, y: usize, process: &Process) -> bool
        requires replica { IsReplica self.now }
        requires var { slice_get self.now.processes.items y ≡ Some (Some process.now) }
        ensures { IsTrue result ↔ IsClean (frame_of self.now) (entries_of self.now) y }
    {
        match self.graph.at(y as u64).kind.inputs() {
            None => true,
            Some((first, second)) => {
                self.histories[first as usize].is_still_since(process.n)
                    && self.histories[second as usize].is_still_since(process.n)
            }
        }
    }

    /// Whether jobs of variable y are out.
    fn is_busy(&self, y: usize) -> bool
        requires replica { IsReplica self.now }
        requires var { y < length (arc_value self.now.graph) }
        ensures { IsTrue result ↔ (slice_index_or (busy_of self.now) y 0 ≢ 0) }
    {
        match &self.processes[y] {
            None => false,
            Some(process) => process.busy > 0,
        }
    }

    /// The least variable that isn't clean, if there is one.
    pub fn first_unclean(&self) -> Option<u8>
        requires { IsReplica self.now }
        ensures some { IfSome result (λ y. IsFirstUnclean self.now y) }
        ensures none { IfNone result ((y : ℕ) → IsUncleanAt self.now y → ⊥) }
    {
        for y in 0..self.processes.len() {
            if !self.is_clean(y) {
                return Some(y as u8);
            }
        }
        None
    }

    /// The least variable that is neither clean nor busy, if there is one.
    fn first_free(&self) -> Option<u8>
        requires { IsReplica self.now }
        ensures some { IfSome result (λ y. IsFirstFree self.now y) }
        ensures none { IfNone result ((y : ℕ) → IsFreeAt self.now y → ⊥) }
    {
        for y in 0..self.processes.len() {
            if !self.is_clean(y) && !self.is_busy(y) {
                return Some(y as u8);
            }
        }
        None
    }

    /// The variable whose job is next: the least that is neither clean nor busy, else the least that isn't clean.
    pub fn next_var(&self) -> Option<u8>
        requires { IsReplica self.now }
        ensures some { IfSome result (λ y. IsNextVar self.now y) }
        ensures none { IfNone result ((y : ℕ) → IsUncleanAt self.now y → ⊥) }
    {
        match self.first_free() {
            Some(y) => Some(y),
            None => self.first_unclean(),
        }
    }

    /// What variable y, which isn't clean, lacks.
    pub fn lacking(&self, y: u8) -> NotYet
        requires replica { IsReplica self.now }
        requires unclean { IsUncleanAt self.now y }
        ensures { IsLacking self.now y result }
    {
        match (
            &self.processes[y as usize],
            self.graph.at(u64::from(y)).kind.inputs(),
        ) {
            (Some(process), Some((first, second))) => {
                if self.histories[first as usize].is_still_since(process.n) {
                    self.version_of(y, second, process.n)
                } else {
                    self.version_of(y, first, process.n)
                }
            }
            (_, _) => unreachable!(),
        }
    }

    fn version_of(&self, var: u8, input: u8, n: u64) -> NotYet
        requires { input < length self.now.histories.items }
        ensures names { (result.var ≡ var) × (result.input ≡ input) }
        ensures applied { result.applied ≡ version_before (growths_at self.now input) n }
        ensures present { result.present ≡ length (growths_at self.now input) }
    {
        let history = &self.histories[input as usize];
        NotYet {
            var,
            input,
            applied: history.version_before(n),
            present: history.version(),
        }
    }
}
