//! The words of the program's environment.

ghost use Rattle.std.specs.Prelude.{◌≡◌, ◌<◌, ◌⊎◌, ℕ, List};
ghost use Rattle.std.specs.Io.KnownBytes.{Appends};
ghost use Rattle.workload_program.specs.Fault.{IsReported, expected_line, line_of};
ghost use Rattle.workload_program.specs.declared.fault.Fault.{Fault as FaultValue};

use crate::fault::{Fault, fail};
use crate::program::run;
use crate::words::refuse;
use program_arguments::{ArgumentsError, read_arguments};
use std::rt::Env;
use wire::Sink;

/// Runs the program on the words of its environment, as [`run`] does, and returns the exit code.
/// Words that aren't text are refused, as others that aren't expected are.
pub fn run_in<R: Env + AllocGlobal, O: Sink, E: Sink>(rt: &R, out: &mut O, error: &mut E) -> u8
    ensures code { (result ≡ 0) ⊎ ((result ≡ 1) ⊎ (result ≡ 2)) }
    ensures text { result ≡ 0 → (text : List ℕ) × Appends (O.given out.old) (O.given out.new) text }
    ensures quiet { result ≡ 0 → E.given error.new ≡ E.given error.old }
    ensures nothing { result ≡ 2 → O.given out.new ≡ O.given out.old }
    ensures expected { result ≡ 2
        → IsReported expected_line (E.given error.old) (E.given error.new) (E.failures error.old)
        (E.failures error.new) }
    ensures failed { O.failures out.old < O.failures out.new → (result ≡ 1)
        × IsReported (line_of Fault.Write) (E.given error.old) (E.given error.new)
        (E.failures error.old) (E.failures error.new) }
    ensures memory { result ≡ 1 → (O.failures out.old < O.failures out.new)
        ⊎ IsReported (line_of Fault.Memory) (E.given error.old) (E.given error.new)
        (E.failures error.old) (E.failures error.new) }
    ensures reported { result ≡ 1 → (fault : FaultValue)
        × IsReported (line_of fault) (E.given error.old) (E.given error.new) (E.failures error.old)
        (E.failures error.new) }
{
    match read_arguments(rt.alloc(), rt) {
        Ok(words) => run(rt.alloc(), &words, out, error),
        Err(ArgumentsError::NotText) => refuse(error),
        Err(ArgumentsError::Memory) => fail(error, Fault::Memory),
    }
}
