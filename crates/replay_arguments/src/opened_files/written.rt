//! The files for the output and for the summary, which are created before anything is printed.

ghost use Rattle.std.specs.Prelude.{◌≡◌, ◌↔◌, ◌<◌, ◌≤◌, ◌⊎◌, IsErr, OnOk};
ghost use Rattle.std.specs.Io.KnownBytes.{Appends};
ghost use Rattle.replay_arguments.specs.Opening.{uncreated_line, written_line};

use crate::opened_files::files::FileError;
use replay_output::{StartError, Status, print_start_error};
use wire::{Failed, Sink, write_all};

/// A file that is written instead of standard output, or beside it.
#[derive(Clone, Copy, Debug, PartialEq, Eq)]
pub enum WrittenFile {
    /// The file for the output.
    Output,
    /// The file for the summary.
    Summary,
}

impl WrittenFile {
    // Returns the line of standard error if it can't be created.
    fn line(self) -> &'static [u8]
        ensures line { result.now ≡ uncreated_line self }
    {
        match self {
            WrittenFile::Output => b"replay: create output\n",
            WrittenFile::Summary => b"replay: create summary\n",
        }
    }
}

/// Prints the line of this file, which can't be created, and returns how the program ends. A failed
/// write changes nothing. Takes no memory.
pub fn fail_to_create_file<W: Sink>(error: &mut W, file: WrittenFile, cause: FileError) -> Status
    ensures status { result ≡ Status.Failed }
    ensures line { (W.failures error.old < W.failures error.new)
        ⊎ Appends (W.given error.old) (W.given error.new) (written_line file cause) }
{
    let _ = print_written_error(error, file, cause);
    Status::Failed
}

fn print_written_error<W: Sink>(
    error: &mut W,
    file: WrittenFile,
    cause: FileError,
) -> Result<(), Failed>
    ensures text { OnOk result (Appends (W.given error.old) (W.given error.new)
        (written_line file cause)) }
    ensures failed { IsErr result ↔ (W.failures error.old < W.failures error.new) }
    ensures least_failures { W.failures error.old ≤ W.failures error.new }
{
    match cause {
        FileError::CannotOpen => write_all(error, file.line()),
        FileError::Memory => print_start_error(error, StartError::Memory),
    }
}
