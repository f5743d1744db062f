//! A file that is written.

ghost use Rattle.std.specs.Prelude.{◌≡◌, ◌≢◌};

use replay_program::{Recorder, RunReport, Status};
use std::fs::File;
use std::io;
use std::io::Write;
use wire::Sink;

/// A file that is truncated by its first write or flush, not when it is opened: until then it may
/// turn out to be a file that is read.
#[derive(Drop)]
pub struct Output {
    file: File,
    // whether it may have bytes from before
    has_old_bytes: bool,
}

impl Output {
    /// Creates the writer of a file that was opened without being truncated. Only a regular file
    /// has bytes from before.
    pub fn new(file: File, is_regular: bool) -> Self {
        Output {
            file,
            has_old_bytes: is_regular,
        }
    }

    fn truncate(&mut self) -> io::Result<()> {
        if self.has_old_bytes {
            self.file.set_len(0)?;
            self.has_old_bytes = false;
        }
        Ok(())
    }
}

impl Write for Output {
    fn write(&mut self, buf: &[u8]) -> io::Result<usize> {
        self.truncate()?;
        self.file.write(buf)
    }

    fn flush(&mut self) -> io::Result<()> {
        self.truncate()?;
        self.file.flush()
    }
}

/// Flushes the files that a run has written, which truncates those that were given no bytes, and
/// returns how the run ends. After a failed run nothing is flushed: it may have been refused
/// because one of these files is read too.
pub fn finish<W: Sink + Drop>(report: RunReport<W>) -> Status
    ensures done { result ≡ Status.Done → report.status ≡ Status.Done }
    ensures kept { result ≢ Status.Failed → result ≡ report.status }
    ensures failed { report.status ≡ Status.Failed → result ≡ Status.Failed }
{
    let mut report = report;
    if report.status == Status::Failed {
        return Status::Failed;
    }
    let output = is_flushed(&mut report.output);
    let summary = is_flushed(&mut report.summary);
    let records = are_flushed(&mut report.recorders);
    if output && summary && records {
        report.status
    } else {
        Status::Failed
    }
}

// Returns whether the writer, if there is one, could be flushed.
fn is_flushed<W: Sink>(writer: &mut Option<W>) -> bool {
    match writer {
        Some(writer) => writer.flush().is_ok(),
        None => true,
    }
}

// Flushes the writer of each recorder, and returns whether all could be flushed.
fn are_flushed<W: Sink>(recorders: &mut [Option<Recorder<W>>]) -> bool {
    let mut flushed = true;
    for recorder in recorders.iter_mut().flatten() {
        if recorder.out.flush().is_err() {
            flushed = false;
        }
    }
    flushed
}
