//! Failures, and the text that reports them.

ghost use Rattle.std.specs.Prelude.{◌≡◌, ◌≢◌, ◌⊎◌, IfOk, string_bytes};
ghost use Rattle.batches_tasks.specs.ErrorText.{IsLine, ReportsLine};
ghost use Rattle.batches_tasks.specs.declared.failure.Failure.TheVariants.{Memory, Read, Report};
ghost use Rattle.batches_tasks.specs.declared.failure.Failure.TheVariants.{Write};

use crate::status::JobStatus;
use batches_report::ReportError;
use json_lines::{Cause, LineRefusal};
use std::alloc::{AllocError, AllocFailed, Global};
use std::io;
use thiserror::Error;
use wire::{Failed, Sink, WireError, write_all};

/// What goes wrong. Lines and frames are counted from 1, blank lines too.
#[derive(Debug, Drop, Error)]
pub enum Failure {
    /// A line of JSON is refused, at this column. Columns are counted in bytes, from 1.
    #[error("line {0}, column {1}: {2}")]
    Line(u64, u64, LineRefusal),
    /// What a line says is too long for a frame.
    #[error("line {0}: longer as a frame than 4,194,304 bytes")]
    Long(u64),
    /// A frame is refused.
    #[error("frame {0}: {1}")]
    Frame(u64, WireError),
    /// The batch of a frame is too long for a frame once it is clipped.
    #[error("frame {0}: its clip is longer as a frame than 4,194,304 bytes")]
    LongClip(u64),
    /// The line of a split point is refused.
    #[error("line {0}: {1}")]
    Point(u64, LineRefusal),
    /// The split point of a line isn't after that of the line before, or is the empty key.
    #[error("line {0}: the split point isn't after the one before")]
    NotRising(u64),
    #[error("more than 63 split points")]
    TooManyPoints,
    /// The split points make fewer shards: as many as this.
    #[error("no shard has this number: there are {0}, counted from 0")]
    NoShard(usize),
    #[error("the number of resolvers isn't from 1 to 64")]
    Resolvers,
    /// The batches and replies make no report.
    #[error("{0}")]
    Report(ReportError),
    /// The file can't be opened.
    #[error("the file can't be opened")]
    Open,
    /// The page can't be written to this file.
    #[error("the file can't be created")]
    Create,
    /// The page would overwrite this file, which is read.
    #[error("the file is read too, and isn't overwritten")]
    AlsoRead,
    /// A word of the command line isn't text.
    #[error("a word of the command line isn't UTF-8")]
    NotText,
    #[error("memory was refused")]
    Memory,
    #[error("the input can't be read")]
    Read,
    #[error("the output can't be written")]
    Write,
}

impl Failure {
    /// Creates the failure of a refused line of JSON.
    pub fn of_line(number: u64, column: u64, refusal: LineRefusal) -> Self
        ensures which { ((refusal.cause ≡ Cause.Memory) × (result ≡ Failure.Memory))
            ⊎ ((refusal.cause ≢ Cause.Memory) × (result ≡ Failure.Line number column refusal)) }
    {
        match refusal.cause {
            Cause::Memory => Failure::Memory,
            cause => Failure::Line(number, column, LineRefusal::new(refusal.place, cause)),
        }
    }

    /// Creates the failure of the refused line of a split point.
    pub fn of_point(number: u64, refusal: LineRefusal) -> Self
        ensures which { ((refusal.cause ≡ Cause.Memory) × (result ≡ Failure.Memory))
            ⊎ ((refusal.cause ≢ Cause.Memory) × (result ≡ Failure.Point number refusal)) }
    {
        match refusal.cause {
            Cause::Memory => Failure::Memory,
            cause => Failure::Point(number, LineRefusal::new(refusal.place, cause)),
        }
    }

    /// Creates the failure of a refused frame.
    pub fn of_frame(number: u64, refusal: WireError) -> Self
        ensures which { ((refusal ≡ WireError.Memory) × (result ≡ Failure.Memory))
            ⊎ ((refusal ≢ WireError.Memory) × (result ≡ Failure.Frame number refusal)) }
    {
        match refusal {
            WireError::Memory => Failure::Memory,
            refusal => Failure::Frame(number, refusal),
        }
    }

    /// Creates the failure of a line's value, if it has no frame.
    pub fn of_long(number: u64, refusal: WireError) -> Self
        ensures which { ((refusal ≡ WireError.Long) × (result ≡ Failure.Long number))
            ⊎ ((refusal ≢ WireError.Long) × (result ≡ Failure.Memory)) }
    {
        match refusal {
            WireError::Long => Failure::Long(number),
            _ => Failure::Memory,
        }
    }

    /// Creates the failure of a clip that has no frame.
    pub fn of_clip(number: u64, refusal: WireError) -> Self
        ensures which { ((refusal ≡ WireError.Long) × (result ≡ Failure.LongClip number))
            ⊎ ((refusal ≢ WireError.Long) × (result ≡ Failure.Memory)) }
    {
        match refusal {
            WireError::Long => Failure::LongClip(number),
            _ => Failure::Memory,
        }
    }
}

impl From<AllocError> for Failure {
    ghost from_gives = { λ _ failure. failure ≡ Memory };

    fn from(_refused: AllocError) -> Failure {
        Failure::Memory
    }
}

impl<T: Drop> From<AllocFailed<T>> for Failure {
    ghost from_gives = { λ _ failure. failure ≡ Memory };

    fn from(_refused: AllocFailed<T>) -> Failure {
        Failure::Memory
    }
}

impl From<ReportError> for Failure {
    ghost from_gives = { λ error failure. (failure ≡ Memory) ⊎ (failure ≡ Report error) };

    fn from(error: ReportError) -> Failure {
        match error {
            ReportError::Memory => Failure::Memory,
            error => Failure::Report(error),
        }
    }
}

impl From<Failed> for Failure {
    ghost from_gives = { λ _ failure. failure ≡ Write };

    fn from(_failed: Failed) -> Failure {
        Failure::Write
    }
}

impl From<io::Error> for Failure {
    ghost from_gives = { λ _ failure. (failure ≡ Memory) ⊎ (failure ≡ Read) };

    fn from(error: io::Error) -> Failure {
        match error.kind() {
            io::ErrorKind::OutOfMemory => Failure::Memory,
            _ => Failure::Read,
        }
    }
}

/// Tells the failure in a line that begins with the program, and returns how the program ends. A
/// failed write changes nothing.
pub fn fail<E: Sink>(error: &mut E, alloc: Global, failure: &Failure) -> JobStatus
    ensures failed { result ≡ JobStatus.Failed }
    ensures reported { ReportsLine (E.given error.old) (E.given error.new) (E.failures error.old)
        (E.failures error.new) }
{
    match line_of(alloc, failure) {
        Ok(line) => report_line(error, line.as_bytes()),
        Err(_) => report_line(error, b"batches: memory was refused\n"),
    }
}

/// Tells the failure in a line that begins with the program and the name of the input, and returns
/// how the program ends. A failed write changes nothing.
pub fn fail_in<E: Sink>(error: &mut E, alloc: Global, name: &str, failure: &Failure) -> JobStatus
    ensures failed { result ≡ JobStatus.Failed }
    ensures reported { ReportsLine (E.given error.old) (E.given error.new) (E.failures error.old)
        (E.failures error.new) }
{
    match line_in(alloc, name, failure) {
        Ok(named) => report_line(error, named.as_bytes()),
        Err(_) => report_line(error, b"batches: memory was refused\n"),
    }
}

fn report_line<E: Sink>(error: &mut E, line: &[u8]) -> JobStatus
    requires line { IsLine line.now }
    ensures failed { result ≡ JobStatus.Failed }
    ensures reported { ReportsLine (E.given error.old) (E.given error.new) (E.failures error.old)
        (E.failures error.new) }
{
    let _ = write_all(error, line);
    JobStatus::Failed
}

// Returns the line of a failure, with its line feed.
fn line_of(alloc: Global, failure: &Failure) -> Result<String, AllocError>
    ensures line { IfOk result (λ line. IsLine (string_bytes line)) }
{
    let mut line = format!(in alloc; "batches: {failure}")?;
    line.push('\n')?;
    Ok(line)
}

// Returns the same with the name of the input or of the output.
fn line_in(alloc: Global, name: &str, failure: &Failure) -> Result<String, AllocError>
    ensures line { IfOk result (λ line. IsLine (string_bytes line)) }
{
    let mut line = format!(in alloc; "batches: {name}: {failure}")?;
    line.push('\n')?;
    Ok(line)
}
