//! A page of what batches and the replies to them add up to.

ghost use Rattle.std.specs.Prelude.{◌≡◌};
ghost use Rattle.batches_tasks.specs.ErrorText.{ReportsLine};

use crate::jobs::{open, print, shown};
use batches_arguments::STANDARD_INPUT;
use batches_report::{ReportInputs, Tally, page_of};
use batches_tasks::{Failure, JobStatus, fail_in, tally_batches, tally_replies};
use std::fs;
use std::fs::{File, Files, Metadata, OpenOptions};
use std::os::unix::fs::MetadataExt;
use wire::{Sink, StdSink, StdSource, write_and_flush};

// A name of the file that is standard input.
const STANDARD_INPUT_FILE: &str = "/dev/stdin";

/// Writes a page of what the batches of the files and the replies to them add up to. Writes nothing
/// if a file has a fault, or if the page would overwrite a regular file that was read, by whatever
/// name.
pub fn write_report<R: Files<File = File> + Input + AllocGlobal, O: Sink, E: Sink>(
    rt: &R,
    files: &[&str],
    replies: &[&str],
    page: Option<&str>,
    out: &mut O,
    error: &mut E,
) -> JobStatus
    ensures ok { result ≡ JobStatus.Done → O.failures out.new ≡ O.failures out.old }
    ensures quiet { result ≡ JobStatus.Done → error.new ≡ error.old }
    ensures reported { result ≡ JobStatus.Failed
        → ReportsLine (E.given error.old) (E.given error.new) (E.failures error.old)
        (E.failures error.new) }
{
    let alloc = rt.alloc();
    let mut tally = Tally::new(alloc);
    let inputs = match tally_files(rt, files, replies, &mut tally) {
        Ok(inputs) => inputs,
        Err((name, failure)) => return fail_in(error, alloc, name, &failure),
    };
    let text = text_of_page(rt, &tally, inputs);
    match page {
        Some(name) => save(rt, name, files, replies, text, error),
        None => print(rt, text, out, error),
    }
}

// Writes the text to a file, or prints why it can't.
fn save<R: Files<File = File> + AllocGlobal, E: Sink>(
    rt: &R,
    name: &str,
    files: &[&str],
    replies: &[&str],
    text: Result<Vec<u8>, Failure>,
    error: &mut E,
) -> JobStatus
    ensures quiet { result ≡ JobStatus.Done → error.new ≡ error.old }
    ensures reported { result ≡ JobStatus.Failed
        → ReportsLine (E.given error.old) (E.given error.new) (E.failures error.old)
        (E.failures error.new) }
{
    match write_file(rt, name, files, replies, text) {
        Ok(()) => JobStatus::Done,
        Err(failure) => fail_in(error, rt.alloc(), name, &failure),
    }
}

fn write_file<R: Files<File = File>>(
    rt: &R,
    name: &str,
    files: &[&str],
    replies: &[&str],
    text: Result<Vec<u8>, Failure>,
) -> Result<(), Failure> {
    let text = text?;
    let file = open_page(rt, name, files, replies)?;
    Ok(write_and_flush(&mut StdSink::new(file), &text)?)
}

// Opens the file of the page, without its bytes from before. It is truncated once it is known not
// to be a file that was read. The metadata are those of the open file, so it is the one that is
// truncated, even if the name is given to another.
fn open_page<R: Files<File = File>>(
    rt: &R,
    name: &str,
    files: &[&str],
    replies: &[&str],
) -> Result<File, Failure> {
    let opened = OpenOptions::new()
        .write(true)
        .create(true)
        .truncate(false)
        .open(rt, name);
    let Ok(file) = opened else {
        return Err(Failure::Create);
    };
    let Ok(page) = file.metadata() else {
        return Err(Failure::Create);
    };
    if page.is_file() {
        if is_read(rt, &page, files) || is_read(rt, &page, replies) {
            return Err(Failure::AlsoRead);
        }
        if file.set_len(0).is_err() {
            return Err(Failure::Write);
        }
    }
    Ok(file)
}

// Returns whether the file of the page has one of these names, or is standard input under its own.
fn is_read<R: Files>(rt: &R, page: &Metadata, names: &[&str]) -> bool {
    for name in names {
        if is_file_of(rt, page, name) {
            return true;
        }
    }
    false
}

// A file has one device and inode, whatever its names are.
fn is_file_of<R: Files>(rt: &R, page: &Metadata, name: &str) -> bool {
    let path = if name == STANDARD_INPUT {
        STANDARD_INPUT_FILE
    } else {
        name
    };
    match fs::metadata(rt, path) {
        Ok(read) => read.dev() == page.dev() && read.ino() == page.ino(),
        Err(_) => false,
    }
}

fn text_of_page<R: AllocGlobal>(
    rt: &R,
    tally: &Tally,
    inputs: ReportInputs,
) -> Result<Vec<u8>, Failure> {
    let page = page_of(rt.alloc(), tally, inputs)?;
    Ok(page.into_bytes())
}

// Counts the replies of files, and then the batches of files. An error names the file.
fn tally_files<'a, R: Files<File = File> + Input + AllocGlobal>(
    rt: &R,
    files: &[&'a str],
    replies: &[&'a str],
    tally: &mut Tally,
) -> Result<ReportInputs, (&'a str, Failure)> {
    let mut inputs = ReportInputs {
        batches: 0,
        replies: 0,
    };
    for name in replies {
        match tally_replies_of(rt, name, tally) {
            Ok(count) => inputs.replies = inputs.replies.saturating_add(count),
            Err(failure) => return Err((shown(name), failure)),
        }
    }
    for name in files {
        match tally_batches_of(rt, name, tally) {
            Ok(count) => inputs.batches = inputs.batches.saturating_add(count),
            Err(failure) => return Err((shown(name), failure)),
        }
    }
    Ok(inputs)
}

fn tally_replies_of<R: Files<File = File> + Input + AllocGlobal>(
    rt: &R,
    name: &str,
    tally: &mut Tally,
) -> Result<u64, Failure> {
    let alloc = rt.alloc();
    if name == STANDARD_INPUT {
        return tally_replies(alloc, &mut StdSource::new(rt.reader()), tally);
    }
    tally_replies(alloc, &mut StdSource::new(open(rt, name)?), tally)
}

fn tally_batches_of<R: Files<File = File> + Input + AllocGlobal>(
    rt: &R,
    name: &str,
    tally: &mut Tally,
) -> Result<u64, Failure> {
    let alloc = rt.alloc();
    if name == STANDARD_INPUT {
        return tally_batches(alloc, &mut StdSource::new(rt.reader()), tally);
    }
    tally_batches(alloc, &mut StdSource::new(open(rt, name)?), tally)
}
