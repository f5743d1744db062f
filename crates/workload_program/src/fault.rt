//! Why a file could not be written in full.

ghost use Rattle.std.specs.Prelude.{◌≡◌};
ghost use Rattle.workload_program.specs.Fault.{IsReported, line_of, of_frame, of_limit};
ghost use Rattle.workload_program.specs.declared.fault.Fault.TheVariants.{Limit, Memory, Write};

use keyspace::{KeyError, LimitError};
use std::alloc::{AllocError, AllocFailed};
use wire::{Failed, Sink, WireError, write_all};

/// Why a file could not be written in full.
#[derive(Clone, Copy, Debug, PartialEq, Eq)]
pub enum Fault {
    /// Memory was refused.
    Memory,
    /// A value is outside the limits of its type, or of its frame.
    Limit,
    /// A write failed.
    Write,
}

impl Fault {
    /// Returns the line of standard error.
    pub fn line(self) -> &'static str
        ensures line { result.now ≡ line_of self }
    {
        match self {
            Fault::Memory => "workload: memory is refused\n",
            Fault::Limit => "workload: a batch is outside its limits\n",
            Fault::Write => "workload: a write failed\n",
        }
    }
}

/// Tells the fault, and returns the exit code. A failed write changes nothing. Takes no memory.
pub fn fail<E: Sink>(error: &mut E, fault: Fault) -> u8
    ensures code { result ≡ 1 }
    ensures reported { IsReported (line_of fault) (E.given error.old) (E.given error.new)
        (E.failures error.old) (E.failures error.new) }
{
    let _ = write_all(error, fault.line().as_bytes());
    1
}

impl From<AllocError> for Fault {
    ghost from_gives = { λ _ fault. fault ≡ Memory };

    fn from(_refused: AllocError) -> Fault {
        Fault::Memory
    }
}

impl<T: Drop> From<AllocFailed<T>> for Fault {
    ghost from_gives = { λ _ fault. fault ≡ Memory };

    fn from(_refused: AllocFailed<T>) -> Fault {
        Fault::Memory
    }
}

impl From<KeyError> for Fault {
    ghost from_gives = { λ _ fault. fault ≡ Limit };

    fn from(_beyond: KeyError) -> Fault {
        Fault::Limit
    }
}

impl From<LimitError> for Fault {
    ghost from_gives = { λ refused fault. fault ≡ of_limit refused };

    fn from(refused: LimitError) -> Fault {
        match refused {
            LimitError::Memory => Fault::Memory,
            LimitError::Version | LimitError::Count => Fault::Limit,
        }
    }
}

impl From<WireError> for Fault {
    ghost from_gives = { λ refused fault. fault ≡ of_frame refused };

    fn from(refused: WireError) -> Fault {
        match refused {
            WireError::Memory => Fault::Memory,
            _ => Fault::Limit,
        }
    }
}

impl From<Failed> for Fault {
    ghost from_gives = { λ _ fault. fault ≡ Write };

    fn from(_failed: Failed) -> Fault {
        Fault::Write
    }
}
