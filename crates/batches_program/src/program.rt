//! What the command line asks for, done.

ghost use Rattle.std.specs.Prelude.{◌≡◌, IsTrue, not};
ghost use Rattle.batches_tasks.specs.ErrorText.{ReportsLine};

use crate::conversion::convert_file;
use crate::jobs::{OUTPUT, print_points, print_stats, write_clips};
use crate::opening::open_chain;
use crate::report_page::write_report;
use batches_arguments::{ArgumentsStop, Job, read_words};
use batches_tasks::{Failure, JobStatus, fail, fail_in};
use program_arguments::{ArgumentsError, read_arguments};
use std::alloc::Global;
use std::fs::{File, Files};
use std::rt::Env;
use wire::{Failed, Sink, write_all, write_and_flush};

/// Runs the program on the words and the streams of the process. The progress through a long file
/// is reported if `watched` says that people read standard error.
pub fn run<R: Files<File = File> + Env + Input + AllocGlobal, O: Sink, E: Sink>(
    rt: &R,
    watched: bool,
    out: &mut O,
    error: &mut E,
) -> JobStatus
    ensures ok { result ≡ JobStatus.Done → O.failures out.new ≡ O.failures out.old }
    ensures quiet { result ≡ JobStatus.Done → IsTrue (not watched) → error.new ≡ error.old }
    ensures reported { result ≡ JobStatus.Failed
        → ReportsLine (E.given error.old) (E.given error.new) (E.failures error.old)
        (E.failures error.new) }
{
    let alloc = rt.alloc();
    let words = match read_arguments(alloc, rt) {
        Ok(words) => words,
        Err(ArgumentsError::NotText) => return fail(error, alloc, &Failure::NotText),
        Err(ArgumentsError::Memory) => return fail(error, alloc, &Failure::Memory),
    };
    match read_words(alloc, &words) {
        Ok(job) => do_job(rt, &job, watched, out, error),
        Err(stop) => end(&stop, alloc, out, error),
    }
}

// Does what the command line asks for. If it can't, it reports why.
fn do_job<R: Files<File = File> + Input + AllocGlobal, O: Sink, E: Sink>(
    rt: &R,
    job: &Job<'_>,
    watched: bool,
    out: &mut O,
    error: &mut E,
) -> JobStatus
    ensures ok { result ≡ JobStatus.Done → O.failures out.new ≡ O.failures out.old }
    ensures quiet { result ≡ JobStatus.Done → IsTrue (not watched) → error.new ≡ error.old }
    ensures reported { result ≡ JobStatus.Failed
        → ReportsLine (E.given error.old) (E.given error.new) (E.failures error.old)
        (E.failures error.new) }
{
    match job {
        Job::Convert(line) => convert_file(rt, line, watched, out, error),
        Job::Opening(version) => open_chain(rt.alloc(), *version, out, error),
        Job::Stats { files, json } => print_stats(rt, files, *json, out, error),
        Job::SplitPoints { files, resolvers } => print_points(rt, files, *resolvers, out, error),
        Job::Clip {
            points,
            shard,
            file,
        } => write_clips(rt, points, *shard, *file, out, error),
        Job::Report {
            files,
            replies,
            page,
        } => write_report(rt, files, replies, *page, out, error),
    }
}

// Prints the text instead of doing anything, and returns how the program ends.
fn end<O: Sink, E: Sink>(
    stop: &ArgumentsStop,
    alloc: Global,
    out: &mut O,
    error: &mut E,
) -> JobStatus
    ensures ok { result ≡ JobStatus.Done → O.failures out.new ≡ O.failures out.old }
    ensures quiet { result ≡ JobStatus.Done → error.new ≡ error.old }
    ensures reported { result ≡ JobStatus.Failed
        → ReportsLine (E.given error.old) (E.given error.new) (E.failures error.old)
        (E.failures error.new) }
{
    match stop {
        ArgumentsStop::Shown(text) => match write_and_flush(out, text.as_bytes()) {
            Ok(()) => JobStatus::Done,
            Err(Failed) => fail_in(error, alloc, OUTPUT, &Failure::Write),
        },
        ArgumentsStop::Refused(text) => {
            let _ = write_all(error, text.as_bytes());
            JobStatus::Usage
        }
        ArgumentsStop::Memory => fail(error, alloc, &Failure::Memory),
    }
}
