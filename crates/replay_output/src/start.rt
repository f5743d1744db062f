//! Why a run could not start, and its line on standard error.

ghost use Rattle.std.specs.Prelude.{◌≡◌, ◌<◌, ◌≤◌, ◌↔◌, ◌⊎◌, IsErr, OnOk};
ghost use Rattle.std.specs.Io.KnownBytes.{Appends};
ghost use Rattle.replay_output.specs.Start.{start_line};

use crate::status::Status;
use std::alloc::AllocError;
use wire::{Failed, Sink, write_all};

/// Why a run could not start.
#[derive(Clone, Copy, Debug, PartialEq, Eq)]
pub enum StartError {
    /// Memory was refused before the first thread was started.
    Memory,
    /// A thread could not be started.
    Thread,
}

impl From<AllocError> for StartError {
    ghost use Rattle.replay_output.specs.declared.start.StartError.TheVariants.{Memory};

    ghost from_gives = { λ _ error. error ≡ Memory };

    fn from(_refused: AllocError) -> StartError {
        StartError::Memory
    }
}

/// Prints the line of the cause, and returns how the program ends. A failed write changes nothing.
/// Takes no memory.
pub fn fail_to_start<W: Sink>(error: &mut W, cause: StartError) -> Status
    ensures status { result ≡ Status.Failed }
    ensures line { (W.failures error.old < W.failures error.new)
        ⊎ Appends (W.given error.old) (W.given error.new) (start_line cause) }
{
    let _ = print_start_error(error, cause);
    Status::Failed
}

/// Prints the line of the cause. After an error some of the text may be written.
pub fn print_start_error<W: Sink>(error: &mut W, cause: StartError) -> Result<(), Failed>
    ensures text { OnOk result (Appends (W.given error.old) (W.given error.new)
        (start_line cause)) }
    ensures failed { IsErr result ↔ (W.failures error.old < W.failures error.new) }
    ensures least_failures { W.failures error.old ≤ W.failures error.new }
{
    match cause {
        StartError::Memory => write_all(error, b"replay: start 1 Memory\n"),
        StartError::Thread => write_all(error, b"replay: start 2 Thread\n"),
    }
}
