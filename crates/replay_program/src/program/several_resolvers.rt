//! A command line with several resolvers.

ghost use Rattle.std.specs.Prelude.{◌≡◌, ◌≢◌, ◌≤◌, ℕ, List, Option, map, true, vec_items, vec_len};
ghost use Rattle.std.specs.List.{All};
ghost use Rattle.std.specs.Io.KnownBytes.{Keeps};
ghost use Rattle.replay_arguments.specs.Asks.{Asks};
ghost use Rattle.replay_arguments.specs.Opening.{contents_each};
ghost use Rattle.replay_program.specs.Program.{EndsQuietly, OfOutput, named_files, texts};
ghost use Rattle.replay_tasks.specs.Sharded.{HasMetByShards};
ghost use Rattle.replay_program.specs.ShardedProgram.{ArePointsOf, IsLineDoneByShards};
ghost use Rattle.replay_program.specs.ShardedProgram.{IsWhyNotSharded, LineFailsAndSaysByShards};
ghost use Rattle.replay_program.specs.ShardedProgram.{LineFailsByShards, regular_files};
ghost use Rattle.replay_program.specs.ShardedProgram.{LineFindsDifferencesByShards};
ghost use Rattle.replay_tasks.specs.Replayed.{HasFailed, Written, written};
ghost use Rattle.replay_sharded.specs.Files.{ReadTheFiles};
ghost use Rattle.replay_stream.specs.Sinks.{state_by};

use crate::program::line::say_more;
use crate::report::RunReport;
use opened::{ShardingError, fail_to_shard, open_sharded};
use replay_arguments::{CommandLine, Files, WrittenFile, fail_to_create_file};
use replay_output::Status;
use replay_sharded::ShardedReaders;
use replay_workers::WaitingRoom;
use std::alloc::Global;
use std::sync::Wait;
use std::thread::Threads;
use task::run_task_sharded;
use wire::Sink;

mod comparison;
mod opened;
mod printed_answers;
mod task;

/// Opens the files of batches once per shard, creates the file for the output, if one is named, and
/// does the task. It fails if one of the files isn't a regular one, or can't be opened or created,
/// or if the file of split points has a fault. Then nothing is printed to `out`, and the cause is
/// reported to `error`.
///
/// With `--verbose`, a failure is explained by one more line on `error`, unless there is nothing to
/// say, or memory is refused. If a file isn't a regular one, nothing more is said. Without a
/// failure, one line says that all batches are held, if no batch of the files follows version -1.
pub fn run_line_sharded<R: Threads + Wait + Copy + Send + 'static, F: Files, O: Sink, E: Sink>(
    rt: &R,
    alloc: Global,
    files: &F,
    line: &CommandLine,
    out: &mut O,
    error: &mut E,
) -> RunReport<F::Writer>
    requires asked { (words : List (List ℕ)) × Asks words line.now }
    requires several { 2 ≤ line.now.sharding.resolvers }
    ensures done { result.status ≡ Status.Done
        → IsLineDoneByShards (state_by F.Writer.given F.Writer.failures)
        (named_files (F.contents files.now) (F.has_opened files.now) (F.cannot_open files.now)
        (F.begun files.now) (F.has_created files.now) (F.cannot_create files.now))
        line.now result
        (written (O.given out.old) (O.given out.new) (O.failures out.old) (O.failures out.new)) }
    ensures differs { result.status ≡ Status.Differs
        → LineFindsDifferencesByShards (state_by F.Writer.given F.Writer.failures)
        (named_files (F.contents files.now) (F.has_opened files.now) (F.cannot_open files.now)
        (F.begun files.now) (F.has_created files.now) (F.cannot_create files.now))
        line.now result
        (written (O.given out.old) (O.given out.new) (O.failures out.old) (O.failures out.new)) }
    ensures quiet { result.status ≢ Status.Failed → EndsQuietly (F.contents files.now) line.now
        (written (E.given error.old) (E.given error.new) (E.failures error.old)
        (E.failures error.new)) }
    ensures failed { result.status ≡ Status.Failed
        → LineFailsAndSaysByShards (state_by F.Writer.given F.Writer.failures)
        (regular_files (F.is_regular files.now) (F.is_irregular files.now))
        (named_files (F.contents files.now) (F.has_opened files.now) (F.cannot_open files.now)
        (F.begun files.now) (F.has_created files.now) (F.cannot_create files.now))
        line.now result
        (written (O.given out.old) (O.given out.new) (O.failures out.old) (O.failures out.new))
        (written (E.given error.old) (E.given error.new) (E.failures error.old)
        (E.failures error.new)) }
    ensures ends { result.status ≢ Status.Usage }
{
    let sharded = match open_sharded(alloc, files, line) {
        Ok(sharded) => sharded,
        Err(cause) => return fail_unopened(alloc, files, line, &cause, error),
    };
    let report = do_line_sharded(rt, alloc, files, line, sharded, out, error);
    say_more(alloc, files, line, report.status, report.met, error);
    report
}

// Prints why the files were not opened for several resolvers. With `--verbose`, that is explained,
// but a file that isn't a regular one is not opened: a pipe would wait for its other end.
fn fail_unopened<F: Files, E: Sink>(
    alloc: Global,
    files: &F,
    line: &CommandLine,
    cause: &ShardingError,
    error: &mut E,
) -> RunReport<F::Writer>
    requires why { IsWhyNotSharded (F.is_regular files.now) (F.is_irregular files.now)
        (F.has_opened files.now) (F.cannot_open files.now) (texts line.now.files.items) cause.now }
    ensures failed { (standard : Written) → standard.after ≡ standard.before
        → LineFailsAndSaysByShards (state_by F.Writer.given F.Writer.failures)
        (regular_files (F.is_regular files.now) (F.is_irregular files.now))
        (named_files (F.contents files.now) (F.has_opened files.now) (F.cannot_open files.now)
        (F.begun files.now) (F.has_created files.now) (F.cannot_create files.now))
        line.now result standard
        (written (E.given error.old) (E.given error.new) (E.failures error.old)
        (E.failures error.new)) }
    ensures status { result.status ≡ Status.Failed }
{
    let report = RunReport::unstarted(alloc, fail_to_shard(alloc, error, cause));
    match cause {
        ShardingError::Irregular(_) => {}
        ShardingError::Opening(_) | ShardingError::Points(_) | ShardingError::Memory => {
            say_more(alloc, files, line, report.status, report.met, error);
        }
    }
    report
}

// Creates the file for the output, if one is named, and does the task, with these readers of the
// files of batches for every shard.
fn do_line_sharded<R: Threads + Wait + Copy + Send + 'static, F: Files, O: Sink, E: Sink>(
    rt: &R,
    alloc: Global,
    files: &F,
    line: &CommandLine,
    sharded: ShardedReaders<F::Reader, WaitingRoom>,
    out: &mut O,
    error: &mut E,
) -> RunReport<F::Writer>
    requires asked { (words : List (List ℕ)) × Asks words line.now }
    requires several { 2 ≤ line.now.sharding.resolvers }
    requires proxies { sharded.proxies ≡ vec_len line.now.files }
    requires points { ArePointsOf (F.contents files.now) line.now sharded.points }
    requires opened { All (F.has_opened files.now) (texts line.now.files.items) }
    requires files { All (ReadTheFiles F.Reader.remaining
        (contents_each (F.contents files.now) (texts line.now.files.items)))
        (map vec_items sharded.readers.items) }
    ensures done { result.status ≡ Status.Done
        → IsLineDoneByShards (state_by F.Writer.given F.Writer.failures)
        (named_files (F.contents files.now) (F.has_opened files.now) (F.cannot_open files.now)
        (F.begun files.now) (F.has_created files.now) (F.cannot_create files.now))
        line.now result
        (written (O.given out.old) (O.given out.new) (O.failures out.old) (O.failures out.new)) }
    ensures differs { result.status ≡ Status.Differs
        → LineFindsDifferencesByShards (state_by F.Writer.given F.Writer.failures)
        (named_files (F.contents files.now) (F.has_opened files.now) (F.cannot_open files.now)
        (F.begun files.now) (F.has_created files.now) (F.cannot_create files.now))
        line.now result
        (written (O.given out.old) (O.given out.new) (O.failures out.old) (O.failures out.new)) }
    ensures quiet { result.status ≢ Status.Failed → Keeps (E.given error.old) (E.given error.new) }
    ensures failed { result.status ≡ Status.Failed
        → LineFailsByShards (state_by F.Writer.given F.Writer.failures)
        (regular_files (F.is_regular files.now) (F.is_irregular files.now))
        (named_files (F.contents files.now) (F.has_opened files.now) (F.cannot_open files.now)
        (F.begun files.now) (F.has_created files.now) (F.cannot_create files.now))
        line.now result
        (written (O.given out.old) (O.given out.new) (O.failures out.old) (O.failures out.new))
        (written (E.given error.old) (E.given error.new) (E.failures error.old)
        (E.failures error.new)) }
    ensures met { HasMetByShards sharded.points line.now.options
        (contents_each (F.contents files.now) (texts line.now.files.items)) result.met
        (written (E.given error.old) (E.given error.new) (E.failures error.old)
        (E.failures error.new)) }
    ensures output_failed { result.met.output_failed ≡ true
        → OfOutput (state_by F.Writer.given F.Writer.failures)
        (named_files (F.contents files.now) (F.has_opened files.now) (F.cannot_open files.now)
        (F.begun files.now) (F.has_created files.now) (F.cannot_create files.now))
        line.now result
        (written (O.given out.old) (O.given out.new) (O.failures out.old) (O.failures out.new))
        HasFailed }
    ensures ends { result.status ≢ Status.Usage }
{
    match line.output {
        None => run_task_sharded(rt, alloc, files, line, sharded, out, error),
        Some(name) => match files.create(name) {
            Ok(writer) => {
                let mut writer = writer;
                let mut report = run_task_sharded(
                    rt,
                    alloc,
                    files,
                    line,
                    sharded,
                    &mut writer,
                    error,
                );
                report.output = Some(writer);
                report
            }
            Err(cause) => {
                let status = fail_to_create_file(error, WrittenFile::Output, cause);
                RunReport::unstarted(alloc, status)
            }
        },
    }
}
