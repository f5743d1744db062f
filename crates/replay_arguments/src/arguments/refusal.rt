//! Why nothing is replayed, and how the program ends then.

ghost use Rattle.std.specs.Prelude.{◌≡◌, ◌≢◌, ◌↔◌, ◌⊎◌, ◌<◌, IfOk, IsErr, OnOk, string_bytes};
ghost use Rattle.std.specs.Io.KnownBytes.{Appends};
ghost use Rattle.clap.specs.Words.{kind_of};
ghost use Rattle.replay_output.specs.Start.{start_line};
ghost use Rattle.replay_arguments.specs.Arguments.{IsRefusalOf};
ghost use Rattle.replay_output.specs.declared.start.StartError.TheVariants as start;

use clap::error::ErrorKind;
use replay_output::{StartError, Status, fail_to_start};
use std::alloc::{AllocError, Global};
use wire::{Failed, Sink, write_all, write_and_flush};

/// Why nothing is replayed.
#[derive(Debug, Drop)]
pub enum ArgumentsRefusal {
    /// Help or the version was asked for: the text for standard output.
    Shown(String),
    /// The command line was refused: the text for standard error.
    Refused(String),
    /// Memory was refused.
    Memory,
}

impl From<AllocError> for ArgumentsRefusal {
    ghost use Rattle.replay_arguments.specs.declared.arguments.refusal.ArgumentsRefusal.TheVariants.{Memory};

    ghost from_gives = { λ _ refusal. refusal ≡ Memory };

    fn from(_refused: AllocError) -> ArgumentsRefusal {
        ArgumentsRefusal::Memory
    }
}

impl ArgumentsRefusal {
    /// Returns what the program makes of an error of `clap`. An error is that memory was refused
    /// for its text.
    pub fn of_clap(alloc: Global, error: &clap::Error) -> Result<Self, AllocError>
        ensures kind { IfOk result (IsRefusalOf (kind_of error.now)) }
        ensures memory { IfOk result (λ refusal. refusal ≡ ArgumentsRefusal.Memory
            ↔ kind_of error.now ≡ ErrorKind.OutOfMemory) }
    {
        if error.kind() == ErrorKind::OutOfMemory {
            return Ok(ArgumentsRefusal::Memory);
        }
        let text = error.to_string(alloc)?;
        if error.use_stderr() {
            Ok(ArgumentsRefusal::Refused(text))
        } else {
            Ok(ArgumentsRefusal::Shown(text))
        }
    }

    /// Prints the text, and returns how the program ends. A failed write to `error` changes
    /// nothing.
    pub fn end<O: Sink, E: Sink>(&self, out: &mut O, error: &mut E) -> Status
        ensures shown { (text : _) → self.now ≡ ArgumentsRefusal.Shown text → result ≡ Status.Done
            → Appends (O.given out.old) (O.given out.new) (string_bytes text) }
        ensures not_shown { (text : _) → self.now ≡ ArgumentsRefusal.Shown text
            → result ≢ Status.Done
            → (result ≡ Status.Failed) × (O.failures out.old < O.failures out.new) }
        ensures quiet { (text : _) → self.now ≡ ArgumentsRefusal.Shown text
            → E.given error.new ≡ E.given error.old }
        ensures refused { (text : _) → self.now ≡ ArgumentsRefusal.Refused text
            → (result ≡ Status.Usage) × (O.given out.new ≡ O.given out.old) }
        ensures reported { (text : _) → self.now ≡ ArgumentsRefusal.Refused text
            → (E.failures error.old < E.failures error.new)
            ⊎ Appends (E.given error.old) (E.given error.new) (string_bytes text) }
        ensures memory { self.now ≡ ArgumentsRefusal.Memory
            → (result ≡ Status.Failed) × (O.given out.new ≡ O.given out.old) }
        ensures memory_reported { self.now ≡ ArgumentsRefusal.Memory
            → (E.failures error.old < E.failures error.new)
            ⊎ Appends (E.given error.old) (E.given error.new) (start_line start.Memory) }
    {
        match self {
            ArgumentsRefusal::Shown(text) => Status::of(show(out, text).is_ok()),
            ArgumentsRefusal::Refused(text) => {
                let _ = write_all(error, text.as_bytes());
                Status::Usage
            }
            ArgumentsRefusal::Memory => fail_to_start(error, StartError::Memory),
        }
    }
}

fn show<W: Sink>(out: &mut W, text: &str) -> Result<(), Failed>
    ensures text { OnOk result (Appends (W.given out.old) (W.given out.new) text.now) }
    ensures failed { IsErr result ↔ (W.failures out.old < W.failures out.new) }
{
    write_and_flush(out, text.as_bytes())
}
