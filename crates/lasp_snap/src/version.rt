//! A version: the states that a replica had after so many entries.

ghost use Rattle.std.specs.Prelude.{◌≡◌, IfOk};
ghost use Rattle.std.specs.Arc.{arc_value};
ghost use Rattle.lasp_snap.specs.Version.{version};

use lasp_graph::States;
use std::alloc::AllocError;
use std::marker::Model;
use std::sync::Arc;

/// The states of a replica after so many entries of its journal, shared by all who keep the version.
#[derive(Drop)]
pub struct Version {
    n: u64,
    states: Arc<States>,
}

impl Model for Version {
    ghost use Rattle.std.specs.Arc.{arc_value};
    ghost use Rattle.lasp_snap.specs.Version as specs;

    ghost Value = { specs.Version };

    ghost coded = { specs.coded_version };

    ghost view = { λ a. specs.version a.n (arc_value a.states) };
}

impl Version {
    /// The version of these states. It takes no memory.
    pub fn new(n: u64, states: Arc<States>) -> Version
        ensures { result ≡ version n (arc_value states) }
    {
        Version { n, states }
    }

    /// The number of entries after which these are the states.
    pub fn n(&self) -> u64
        ensures { result ≡ self.now.n }
    {
        self.n
    }

    /// The states of all variables.
    pub fn states(&self) -> &States
        ensures { result.now ≡ self.now.states }
    {
        &self.states
    }

    /// The same version. It costs one count, whatever the states are.
    pub fn again(&self) -> Result<Version, AllocError>
        ensures { IfOk result (λ v. v ≡ self.now) }
    {
        Ok(Version {
            n: self.n,
            states: Arc::try_clone(&self.states)?,
        })
    }
}
