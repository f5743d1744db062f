//! Combined answers that are printed, with their summary in a file beside them if one is requested.

ghost use Rattle.std.specs.Prelude.{◌≡◌, ◌≢◌, ◌<◌, ℕ, List, None, Option, map, true, vec_items};
ghost use Rattle.std.specs.List.{All};
ghost use Rattle.std.specs.Io.KnownBytes.{Keeps};
ghost use Rattle.replay_program.specs.Program.{named_files};
ghost use Rattle.replay_tasks.specs.Replayed.{written};
ghost use Rattle.replay_tasks.specs.Sharded.{HasMetByShards};
ghost use Rattle.replay_program.specs.ShardedProgram.{AreNotPrintedByShards, ArePrintedByShards};
ghost use Rattle.replay_sharded.specs.Files.{ReadTheFiles};
ghost use Rattle.replay_stream.specs.Sinks.{state_by};

use crate::report::RunReport;
use replay_arguments::{CommandLine, Files, WrittenFile, fail_to_create_file};
use replay_output::Status;
use replay_sharded::ShardedReaders;
use replay_tasks::{SummaryWriter, replay_and_summarize_sharded_over, replay_sharded_over};
use replay_workers::WaitingRoom;
use std::alloc::Global;
use std::sync::Wait;
use std::thread::Threads;
use wire::Sink;

/// Prints the combined answers, as [`replay_sharded_over`] does. If a file is named for their
/// summary, creates it and writes the summary there, as [`replay_and_summarize_sharded_over`] does.
pub fn print_sharded<R: Threads + Wait + Copy + Send + 'static, F: Files, O: Sink, E: Sink>(
    rt: &R,
    alloc: Global,
    files: &F,
    line: &CommandLine,
    sharded: ShardedReaders<F::Reader, WaitingRoom>,
    out: &mut O,
    error: &mut E,
) -> RunReport<F::Writer>
    ensures done { (bytes : List (Option (List ℕ)))
        → All (ReadTheFiles F.Reader.remaining bytes) (map vec_items sharded.readers.items)
        → result.status ≡ Status.Done
        → ArePrintedByShards (state_by F.Writer.given F.Writer.failures)
        (named_files (F.contents files.now) (F.has_opened files.now) (F.cannot_open files.now)
        (F.begun files.now) (F.has_created files.now) (F.cannot_create files.now))
        sharded.points bytes line.now.options line.now.summary_to result.summary
        (written (O.given out.old) (O.given out.new) (O.failures out.old) (O.failures out.new)) }
    ensures quiet { result.status ≡ Status.Done → Keeps (E.given error.old) (E.given error.new) }
    ensures failed { (bytes : List (Option (List ℕ)))
        → All (ReadTheFiles F.Reader.remaining bytes) (map vec_items sharded.readers.items)
        → result.status ≡ Status.Failed
        → AreNotPrintedByShards (state_by F.Writer.given F.Writer.failures)
        (named_files (F.contents files.now) (F.has_opened files.now) (F.cannot_open files.now)
        (F.begun files.now) (F.has_created files.now) (F.cannot_create files.now))
        sharded.points bytes line.now.options line.now.summary_to result.summary
        (written (O.given out.old) (O.given out.new) (O.failures out.old) (O.failures out.new))
        (written (E.given error.old) (E.given error.new) (E.failures error.old)
        (E.failures error.new)) }
    ensures met { (bytes : List (Option (List ℕ)))
        → All (ReadTheFiles F.Reader.remaining bytes) (map vec_items sharded.readers.items)
        → HasMetByShards sharded.points line.now.options bytes result.met
        (written (E.given error.old) (E.given error.new) (E.failures error.old)
        (E.failures error.new)) }
    ensures output_failed { result.met.output_failed ≡ true
        → O.failures out.old < O.failures out.new }
    ensures output { result.output ≡ None }
    ensures ends { result.status ≢ Status.Usage }
    ensures same { result.status ≢ Status.Differs }
{
    match line.summary_to {
        None => {
            let ended = replay_sharded_over(rt, alloc, sharded, line.options, out, error);
            RunReport::without_files(alloc, ended)
        }
        Some(file) => match files.create(file.name) {
            Ok(writer) => {
                let mut summary = SummaryWriter {
                    form: file.form,
                    writer,
                };
                let ended = replay_and_summarize_sharded_over(
                    rt,
                    alloc,
                    sharded,
                    line.options,
                    out,
                    &mut summary,
                    error,
                );
                RunReport {
                    status: ended.status,
                    met: ended.met,
                    recorders: Vec::new(alloc),
                    output: None,
                    summary: Some(summary.writer),
                }
            }
            Err(cause) => {
                let status = fail_to_create_file(error, WrittenFile::Summary, cause);
                RunReport::unstarted(alloc, status)
            }
        },
    }
}
