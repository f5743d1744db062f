//! The JSON value of a line.

ghost use Rattle.std.specs.Prelude.{◌≡◌, ◌≢◌, IfOk, IfErr, OnOk, Some, None};
ghost use Rattle.std.specs.Str.{IsUtf8};
ghost use Rattle.json.specs.Json.{document};
ghost use Rattle.json.specs.Scratch.{room};
ghost use Rattle.json.specs.Value.{value_view};
ghost use Rattle.json_lines.specs.Memory.{TakesMemory};
ghost use Rattle.json_lines.specs.declared.cause.Cause.TheVariants as cause;

use crate::cause::Cause;
use crate::place::LinePlace;
use crate::refusal::LineRefusal;
use json::{Error, Scratch, Value};
use std::alloc::Global;

/// Reads the value that a line is. Members that stand twice are kept, both of them.
pub fn value_of<'a>(
    alloc: Global,
    line: &'a [u8],
    scratch: &'a mut Scratch,
) -> Result<Value<'a>, LineRefusal>
    ensures value { IfOk result (λ value. document line.now ≡ Some (value_view value)) }
    ensures text { OnOk result (IsUtf8 line.now) }
    ensures refused { IfErr result (λ refusal. refusal.cause ≢ cause.Memory → IsUtf8 line.now
        → document line.now ≡ None) }
    ensures memory { IfErr result (λ refusal. refusal.cause ≡ cause.Memory
        → TakesMemory line.now (room scratch.old)) }
{
    match Value::from_slice(alloc, line, scratch) {
        Ok(value) => Ok(value),
        Err(Error::OutOfMemory) => Err(LineRefusal::new(LinePlace::Line, Cause::Memory)),
        Err(Error::Invalid | Error::TooLong | Error::DuplicateKey) => {
            Err(LineRefusal::new(LinePlace::Line, Cause::NotJson))
        }
    }
}
