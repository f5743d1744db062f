//! Jobs over files of batches: what they add up to, split points, and clips.

ghost use Rattle.std.specs.Prelude.{◌≡◌, ◌<◌, length, OnOk};
ghost use Rattle.serial.specs.Shards.{shards};
ghost use Rattle.batches_tasks.specs.ErrorText.{ReportsLine};

use batches_arguments::STANDARD_INPUT;
use batches_tasks::{
    Failure, JobStatus, Stats, clip_frames, count_frames, fail, fail_in, json_of_stats,
    read_batches, read_points, split_points, text_of_stats,
};
use keyspace::Batch;
use shards::SplitPoints;
use std::alloc::Global;
use std::fs::{File, Files};
use std::io::BufReader;
use wire::{Sink, StdSource, write_and_flush};

// What messages call standard input.
const INPUT: &str = "standard input";

/// What messages call standard output.
pub const OUTPUT: &str = "standard output";

/// Prints what the batches of the files add up to, as lines or as JSON. Prints nothing if a file
/// has a fault.
pub fn print_stats<R: Files<File = File> + Input + AllocGlobal, O: Sink, E: Sink>(
    rt: &R,
    files: &[&str],
    json: bool,
    out: &mut O,
    error: &mut E,
) -> JobStatus
    ensures ok { result ≡ JobStatus.Done → O.failures out.new ≡ O.failures out.old }
    ensures quiet { result ≡ JobStatus.Done → error.new ≡ error.old }
    ensures reported { result ≡ JobStatus.Failed
        → ReportsLine (E.given error.old) (E.given error.new) (E.failures error.old)
        (E.failures error.new) }
{
    let alloc = rt.alloc();
    let mut stats = Stats::new();
    if let Err((name, failure)) = count_files(rt, files, &mut stats) {
        return fail_in(error, alloc, name, &failure);
    }
    let text = if json {
        json_of_stats(alloc, &stats)
    } else {
        text_of_stats(alloc, &stats)
    };
    print(rt, text, out, error)
}

/// Prints the lines of split points that spread the batches of the files evenly over this many
/// resolvers. Prints nothing if a file has a fault.
pub fn print_points<R: Files<File = File> + Input + AllocGlobal, O: Sink, E: Sink>(
    rt: &R,
    files: &[&str],
    resolvers: usize,
    out: &mut O,
    error: &mut E,
) -> JobStatus
    ensures ok { result ≡ JobStatus.Done → O.failures out.new ≡ O.failures out.old }
    ensures quiet { result ≡ JobStatus.Done → error.new ≡ error.old }
    ensures reported { result ≡ JobStatus.Failed
        → ReportsLine (E.given error.old) (E.given error.new) (E.failures error.old)
        (E.failures error.new) }
{
    let alloc = rt.alloc();
    let mut batches = Vec::new(alloc);
    if let Err((name, failure)) = collect_files(rt, files, &mut batches) {
        return fail_in(error, alloc, name, &failure);
    }
    print(rt, split_points(alloc, &batches, resolvers), out, error)
}

/// Writes the frames of the batches of a file for the shard of this number. After a fault, those of
/// the frames before it are written.
pub fn write_clips<R: Files<File = File> + Input + AllocGlobal, O: Sink, E: Sink>(
    rt: &R,
    points: &str,
    shard: usize,
    file: Option<&str>,
    out: &mut O,
    error: &mut E,
) -> JobStatus
    ensures ok { result ≡ JobStatus.Done → O.failures out.new ≡ O.failures out.old }
    ensures quiet { result ≡ JobStatus.Done → error.new ≡ error.old }
    ensures reported { result ≡ JobStatus.Failed
        → ReportsLine (E.given error.old) (E.given error.new) (E.failures error.old)
        (E.failures error.new) }
{
    let alloc = rt.alloc();
    let split = match points_of_file(rt, points) {
        Ok(split) => split,
        Err(failure) => return fail_in(error, alloc, points, &failure),
    };
    let count = split.shard_count();
    if count <= shard {
        return fail_in(error, alloc, points, &Failure::NoShard(count));
    }
    match clip_file(rt, &split, shard, file, out) {
        Ok(()) => JobStatus::Done,
        Err(failure) => fail_between(error, alloc, file, &failure),
    }
}

/// Tells the failure of reading a file, or standard input, and writing standard output. Returns how
/// the program ends.
pub fn fail_between<E: Sink>(
    error: &mut E,
    alloc: Global,
    file: Option<&str>,
    failure: &Failure,
) -> JobStatus
    ensures failed { result ≡ JobStatus.Failed }
    ensures reported { ReportsLine (E.given error.old) (E.given error.new) (E.failures error.old)
        (E.failures error.new) }
{
    match failure {
        Failure::Write => fail_in(error, alloc, OUTPUT, failure),
        _ => fail_in(error, alloc, file.unwrap_or(INPUT), failure),
    }
}

/// Prints a text, or says why there is none.
pub fn print<R: AllocGlobal, O: Sink, E: Sink>(
    rt: &R,
    text: Result<Vec<u8>, Failure>,
    out: &mut O,
    error: &mut E,
) -> JobStatus
    ensures ok { result ≡ JobStatus.Done → O.failures out.new ≡ O.failures out.old }
    ensures quiet { result ≡ JobStatus.Done → error.new ≡ error.old }
    ensures reported { result ≡ JobStatus.Failed
        → ReportsLine (E.given error.old) (E.given error.new) (E.failures error.old)
        (E.failures error.new) }
{
    match text {
        Ok(text) => match write_and_flush(out, &text) {
            Ok(()) => JobStatus::Done,
            Err(_) => fail_in(error, rt.alloc(), OUTPUT, &Failure::Write),
        },
        Err(failure) => fail(error, rt.alloc(), &failure),
    }
}

// Counts the batches of the files, in order. An error names the file.
fn count_files<'a, R: Files<File = File> + Input + AllocGlobal>(
    rt: &R,
    files: &[&'a str],
    stats: &mut Stats,
) -> Result<(), (&'a str, Failure)> {
    for name in files {
        if let Err(failure) = count_file(rt, name, stats) {
            return Err((shown(name), failure));
        }
    }
    Ok(())
}

// Reads the batches of the files, in order. An error names the file.
fn collect_files<'a, R: Files<File = File> + Input + AllocGlobal>(
    rt: &R,
    files: &[&'a str],
    batches: &mut Vec<Batch>,
) -> Result<(), (&'a str, Failure)> {
    for name in files {
        if let Err(failure) = collect_file(rt, name, batches) {
            return Err((shown(name), failure));
        }
    }
    Ok(())
}

/// Returns what messages call the file of this name.
pub fn shown(name: &str) -> &str {
    if name == STANDARD_INPUT { INPUT } else { name }
}

fn count_file<R: Files<File = File> + Input + AllocGlobal>(
    rt: &R,
    name: &str,
    stats: &mut Stats,
) -> Result<(), Failure> {
    let alloc = rt.alloc();
    if name == STANDARD_INPUT {
        return count_frames(alloc, &mut StdSource::new(rt.reader()), stats);
    }
    count_frames(alloc, &mut StdSource::new(open(rt, name)?), stats)
}

fn collect_file<R: Files<File = File> + Input + AllocGlobal>(
    rt: &R,
    name: &str,
    batches: &mut Vec<Batch>,
) -> Result<(), Failure> {
    let alloc = rt.alloc();
    if name == STANDARD_INPUT {
        return read_batches(alloc, &mut StdSource::new(rt.reader()), batches);
    }
    read_batches(alloc, &mut StdSource::new(open(rt, name)?), batches)
}

fn points_of_file<R: Files<File = File> + AllocGlobal>(
    rt: &R,
    name: &str,
) -> Result<SplitPoints, Failure> {
    read_points(rt.alloc(), &mut open(rt, name)?)
}

// Writes the clips and flushes the output, after a failure too.
fn clip_file<R: Files<File = File> + Input + AllocGlobal, O: Sink>(
    rt: &R,
    points: &SplitPoints,
    shard: usize,
    file: Option<&str>,
    out: &mut O,
) -> Result<(), Failure>
    requires within { shard < length (shards points.now) }
    ensures ok { OnOk result (O.failures out.new ≡ O.failures out.old) }
{
    let done = clip_input(rt, points, shard, file, out);
    let flushed = out.flush();
    done?;
    Ok(flushed?)
}

fn clip_input<R: Files<File = File> + Input + AllocGlobal, O: Sink>(
    rt: &R,
    points: &SplitPoints,
    shard: usize,
    file: Option<&str>,
    out: &mut O,
) -> Result<(), Failure>
    requires within { shard < length (shards points.now) }
    ensures ok { OnOk result (O.failures out.new ≡ O.failures out.old) }
{
    let alloc = rt.alloc();
    let Some(name) = file else {
        let mut source = StdSource::new(rt.reader());
        return clip_frames(alloc, points, shard, &mut source, out);
    };
    let mut source = StdSource::new(open(rt, name)?);
    clip_frames(alloc, points, shard, &mut source, out)
}

/// Opens a file, to be read from its beginning.
pub fn open<R: Files<File = File> + AllocGlobal>(
    rt: &R,
    name: &str,
) -> Result<BufReader<File>, Failure> {
    let Ok(file) = File::open(rt, name) else {
        return Err(Failure::Open);
    };
    Ok(BufReader::new(rt.alloc(), file)?)
}
