//! A library's functions and the count of their calls.

ghost use Rattle.std.specs.Prelude.{◌≡◌, ◌<◌, length};
ghost use Rattle.model_values.specs.Size.{IsSized};
ghost use Rattle.lasp_value.specs.Value.{val_of};
ghost use Rattle.lasp_fns.specs.Answers.{Answers};
ghost use Rattle.lasp_fns.specs.Library.{maps_of, map_ops_at};
ghost use Rattle.lasp_fns.specs.Named.{place_named};
ghost use Rattle.lasp_fns.specs.Steps.{library_of};

use lasp_fns::{Library, StepLib};
use lasp_value::Value;
use std::alloc::AllocError;

/// `lasp_fns::Library::find_map`.
pub fn find_map(lib: &Library, name: &str) -> Option<u32>
    ensures { result ≡ place_named name.now (maps_of lib.now) }
{
    lib.find_map(name)
}

/// `lasp_fns::StepLib::call_map`.
pub fn call_map(lib: &mut StepLib, i: u32, v: &Value) -> Result<Value, AllocError>
    requires place { i < length (maps_of (library_of lib.old)) }
    requires sized { IsSized (val_of v.now) }
    ensures answer { Answers (map_ops_at (library_of lib.old) i) (val_of v.now) result }
{
    lib.call_map(i, v)
}
