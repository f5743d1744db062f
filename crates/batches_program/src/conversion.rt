//! The conversion of a file, or of standard input.

ghost use Rattle.std.specs.Prelude.{◌≡◌, IsTrue, OnOk, not};
ghost use Rattle.batches_tasks.specs.ErrorText.{ReportsText, ReportsLine};

use crate::jobs::fail_between;
use batches_arguments::JobLine;
use batches_tasks::{Failure, FileProgress, JobStatus, LONG_FILE, convert};
use std::fs::{File, Files};
use std::io::BufReader;
use wire::Sink;

/// Does a conversion. If it can't, it reports why.
pub fn convert_file<R: Files<File = File> + Input + AllocGlobal, O: Sink, E: Sink>(
    rt: &R,
    line: &JobLine<'_>,
    watched: bool,
    out: &mut O,
    error: &mut E,
) -> JobStatus
    ensures ok { result ≡ JobStatus.Done → O.failures out.new ≡ O.failures out.old }
    ensures quiet { result ≡ JobStatus.Done → IsTrue (not watched) → error.new ≡ error.old }
    ensures reported { result ≡ JobStatus.Failed
        → ReportsLine (E.given error.old) (E.given error.new) (E.failures error.old)
        (E.failures error.new) }
{
    match open_and_convert(rt, line, watched, out, error) {
        Ok(()) => JobStatus::Done,
        Err(failure) => fail_between(error, rt.alloc(), line.file, &failure),
    }
}

// Opens what is to be read, and converts it.
fn open_and_convert<R: Files<File = File> + Input + AllocGlobal, O: Sink, E: Sink>(
    rt: &R,
    line: &JobLine<'_>,
    watched: bool,
    out: &mut O,
    error: &mut E,
) -> Result<(), Failure>
    ensures ok { OnOk result (O.failures out.new ≡ O.failures out.old) }
    ensures reported { ReportsText (E.given error.old) (E.given error.new) (E.failures error.old)
        (E.failures error.new) }
    ensures quiet { IsTrue (not watched) → error.new ≡ error.old }
{
    let alloc = rt.alloc();
    let Some(name) = line.file else {
        let mut reader = rt.reader();
        let mut progress = FileProgress::new(alloc, None);
        return convert(
            alloc,
            line.task,
            line.kind,
            &mut reader,
            out,
            error,
            &mut progress,
        );
    };
    let Ok(file) = File::open(rt, name) else {
        return Err(Failure::Open);
    };
    let length = if watched { length_of(&file) } else { None };
    let mut reader = BufReader::new(alloc, file)?;
    let mut progress = FileProgress::new(alloc, length);
    let done = convert(
        alloc,
        line.task,
        line.kind,
        &mut reader,
        out,
        error,
        &mut progress,
    );
    progress.finish(error);
    done
}

// Returns the length of a file whose progress is reported.
fn length_of(file: &File) -> Option<u64> {
    let length = file.metadata().ok()?.len();
    if length > LONG_FILE {
        Some(length)
    } else {
        None
    }
}
