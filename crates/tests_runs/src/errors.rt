//! What errors say. The lines of the program are written by its own code; these texts are for programs that call the crates.

use lasp_drive::{Halt, NodeStop};
use lasp_fns::LibraryRefused;
use lasp_gossip::SendRefused;
use lasp_graph::{DeclRefused, EvalAll, EvalRefused, GraphRefused};
use lasp_replica::{DeliverRefused, NotYet, UpdateRefused};
use lasp_script::ScriptRefused;
use lasp_setops::SetRefused;
use lasp_value::ValueRefused;
use lasp_wire::WireRefused;
use model_readings::GraphWhy;
use model_scripts::ScriptWhy;
use model_wire::WireWhy;
use std::alloc::AllocError;
use std::fmt::Display;
use std::test::Fail;

/// Appends a line for each error.
fn say<E: Display>(said: &mut String, errors: &[E]) -> Result<(), AllocError> {
    for error in errors {
        writeln!(said, "{error}")?;
    }
    Ok(())
}

const READING: &str = "not a value
a number past 64 bits, or no whole one
a value of more than 8 numbers and texts, or of more than 256 bytes of text
out of memory
another function has this name
a function's name has small letters, digits and `_`, at most 32, and begins with a letter
out of memory
Shape
NameShape
NameTaken
UnknownInput
WrongKind
UnknownFunction
TooWide
out of memory
graph 3 UnknownInput
out of memory
script 12 WrongOp
out of memory
at byte 48: Short
out of memory
";

/// What errors of values and names say.
fn say_values(said: &mut String) -> Result<(), AllocError> {
    say(
        said,
        &[
            ValueRefused::NotAValue,
            ValueRefused::NumberRefused,
            ValueRefused::TooBig,
            ValueRefused::Memory,
        ],
    )?;
    say(
        said,
        &[
            LibraryRefused::NameTaken,
            LibraryRefused::NameShape,
            LibraryRefused::Memory,
        ],
    )
}

/// What errors of a declaration say.
fn say_declarations(said: &mut String) -> Result<(), AllocError> {
    say(
        said,
        &[
            DeclRefused::Shape,
            DeclRefused::NameShape,
            DeclRefused::NameTaken,
        ],
    )?;
    say(
        said,
        &[
            DeclRefused::UnknownInput,
            DeclRefused::WrongKind,
            DeclRefused::UnknownFunction,
        ],
    )?;
    say(said, &[DeclRefused::TooWide, DeclRefused::Memory])
}

/// What errors of texts and bytes say.
fn say_files(said: &mut String) -> Result<(), AllocError> {
    let graph = GraphRefused::At {
        number: 3,
        why: GraphWhy::UnknownInput,
    };
    let script = ScriptRefused::At {
        number: 12,
        why: ScriptWhy::WrongOp,
    };
    let message = WireRefused::At {
        place: 48,
        why: WireWhy::Short,
    };
    say_declarations(said)?;
    say(said, &[graph, GraphRefused::Memory])?;
    say(said, &[script, ScriptRefused::Memory])?;
    say(said, &[message, WireRefused::Memory])
}

#[test]
fn errors_of_reading_say_where_and_why(rt: HostRuntime) -> Result<(), Fail> {
    let mut said = String::new(rt.alloc());
    say_values(&mut said)?;
    say_files(&mut said)?;
    assert!(rt; said.as_str() == READING);
    Ok(())
}

const RUNNING: &str = "the result would have more than 65,536 rows
out of memory
too many rows
out of memory
variable 7 has too many rows
out of memory
there is no such variable
the variable is no source
the operation isn't one of the variable
the replica has done all its updates
the variable has too many rows
out of memory
the message is of another graph
variable 5 has too many rows
out of memory
variable 4 has taken in version 1 of variable 2, which is at 3
the network is full
out of memory
variable 6 has too many rows
out of memory
command 9: at node 1 variable 2 has too many rows
command 10: the messages have too many bytes
command 11: a threshold isn't reached
out of memory
";

/// What errors of evaluation say.
fn say_evaluation(said: &mut String) -> Result<(), AllocError> {
    say(said, &[SetRefused::TooManyRows, SetRefused::Memory])?;
    say(said, &[EvalRefused::TooManyRows, EvalRefused::Memory])?;
    say(said, &[EvalAll::TooLarge(7), EvalAll::Memory])
}

/// What errors of a replica's calls say.
fn say_replicas(said: &mut String) -> Result<(), AllocError> {
    say(
        said,
        &[
            UpdateRefused::UnknownVar,
            UpdateRefused::NotASource,
            UpdateRefused::WrongOp,
        ],
    )?;
    say(
        said,
        &[
            UpdateRefused::UpdatesFull,
            UpdateRefused::TooManyRows,
            UpdateRefused::Memory,
        ],
    )?;
    say(
        said,
        &[
            DeliverRefused::WrongGraph,
            DeliverRefused::TooManyRows(5),
            DeliverRefused::Memory,
        ],
    )?;
    say(
        said,
        &[NotYet {
            var: 4,
            input: 2,
            applied: 1,
            present: 3,
        }],
    )
}

/// What errors of a run say.
fn say_runs(said: &mut String) -> Result<(), AllocError> {
    say(said, &[SendRefused::NetworkFull, SendRefused::Memory])?;
    say(said, &[NodeStop::TooLarge(6), NodeStop::Memory])?;
    say(
        said,
        &[
            Halt::TooLarge(9, 1, 2),
            Halt::NetworkFull(10),
            Halt::NotReached(11),
            Halt::Memory,
        ],
    )
}

#[test]
fn errors_of_running_say_what_stopped(rt: HostRuntime) -> Result<(), Fail> {
    let mut said = String::new(rt.alloc());
    say_evaluation(&mut said)?;
    say_replicas(&mut said)?;
    say_runs(&mut said)?;
    assert!(rt; said.as_str() == RUNNING);
    Ok(())
}
