//! The rule between a shelf and its spies: what each of them saw is a beginning of what was published, and all that is shown is of one log.

use super::name::Name;
use super::shown::Shown;
use super::version::Version;
use atomic_table::{Join, Split};
use crossbeam_utils::rule::{Outcome, Protocol};
use left_right::reader::Reader;
use left_right::writer::Writer;
use std::collections::LinkedList;

/// What a shelf or a spy knows. No value of it is made.
pub struct Known {
    /// The versions that it saw published.
    pub seen: LinkedList<Version>,
    /// Which shelf it is of, if it was told.
    pub shelf: Option<Name>,
    /// The number of readings that it was given.
    pub readings: u64,
}

/// What each of them saw is a beginning of what was published.
pub struct Beginnings;

impl Protocol<Shown, Known> for Beginnings {
    ghost use Rattle.lasp_snap.specs.Rule.{Keeps, nothing};

    ghost holds = { Keeps };

    ghost first = { nothing };
}

/// A publication.
pub struct Publishing;

impl Outcome<Shown, Known> for Publishing {
    ghost use Rattle.lasp_snap.specs.Rule.{Publishes};

    ghost then = { Publishes };
}

/// A reading.
pub struct Looking;

impl Outcome<Shown, Known> for Looking {
    ghost use Rattle.lasp_snap.specs.Rule.{Looks};

    ghost then = { Looks };
}

/// A shelf tells a new reader all that it knows.
pub struct Telling;

impl Split<Known> for Telling {
    ghost left = { λ v. v };

    ghost right = { λ v. v };
}

/// A new reader, which knows nothing, takes that in.
pub struct Hearing;

impl Join<Known> for Hearing {
    ghost use Rattle.lasp_snap.specs.Rule.{nothing};

    ghost both = { λ v w. w };

    ghost spent = { nothing };
}

/// The two copies of what is shown, and what their writer knows of it.
pub type Copies = Writer<Shown, Shown, Known, Beginnings>;

/// One who may take what is shown, at any time and without waiting.
pub type Watch = Reader<Shown, Known, Beginnings>;
