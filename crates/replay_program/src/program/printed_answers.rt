//! Answers that are printed, with their summary in a file beside them if one is requested.

ghost use Rattle.std.specs.Prelude.{◌≡◌, ◌≢◌, ◌≤◌, ◌<◌, None, map, true, vec_len};
ghost use Rattle.std.specs.Io.KnownBytes.{Keeps};
ghost use Rattle.replay_tasks.specs.Met.{HasMet};
ghost use Rattle.replay_program.specs.Program.{AreNotPrinted, ArePrinted, named_files};
ghost use Rattle.replay_tasks.specs.Replayed.{written};
ghost use Rattle.replay_stream.specs.Sinks.{state_by};

use crate::program::opened::Opened;
use crate::report::RunReport;
use limits::MAX_PROXIES;
use replay_arguments::{CommandLine, Files, WrittenFile, fail_to_create_file};
use replay_output::Status;
use replay_tasks::{SummaryWriter, replay_and_summarize_over, replay_over};
use std::alloc::Global;
use std::sync::Wait;
use std::thread::Threads;
use wire::Sink;

/// Prints the answers, as [`replay_over`] does. If a file is named for their summary, creates it
/// and writes the summary there, as [`replay_and_summarize_over`] does.
pub fn print_and_summarize<R: Threads + Wait + Copy + Send + 'static, F: Files, O: Sink, E: Sink>(
    rt: &R,
    alloc: Global,
    files: &F,
    line: &CommandLine,
    opened: Opened<F::Reader>,
    out: &mut O,
    error: &mut E,
) -> RunReport<F::Writer>
    requires least_files { 1 ≤ vec_len opened.readers }
    requires most_files { vec_len opened.readers ≤ MAX_PROXIES }
    ensures done { result.status ≡ Status.Done
        → ArePrinted (state_by F.Writer.given F.Writer.failures)
        (named_files (F.contents files.now) (F.has_opened files.now) (F.cannot_open files.now)
        (F.begun files.now) (F.has_created files.now) (F.cannot_create files.now))
        (map F.Reader.remaining opened.readers.items) line.now.options line.now.summary_to
        result.summary
        (written (O.given out.old) (O.given out.new) (O.failures out.old) (O.failures out.new)) }
    ensures quiet { result.status ≡ Status.Done → Keeps (E.given error.old) (E.given error.new) }
    ensures failed { result.status ≡ Status.Failed
        → AreNotPrinted (state_by F.Writer.given F.Writer.failures)
        (named_files (F.contents files.now) (F.has_opened files.now) (F.cannot_open files.now)
        (F.begun files.now) (F.has_created files.now) (F.cannot_create files.now))
        (map F.Reader.remaining opened.readers.items) line.now.options line.now.summary_to
        result.summary
        (written (O.given out.old) (O.given out.new) (O.failures out.old) (O.failures out.new))
        (written (E.given error.old) (E.given error.new) (E.failures error.old)
        (E.failures error.new)) }
    ensures met { HasMet line.now.options
        (map F.Reader.remaining opened.readers.items) result.met
        (written (E.given error.old) (E.given error.new) (E.failures error.old)
        (E.failures error.new)) }
    ensures output_failed { result.met.output_failed ≡ true
        → O.failures out.old < O.failures out.new }
    ensures output { result.output ≡ None }
    ensures ends { result.status ≢ Status.Usage }
    ensures same { result.status ≢ Status.Differs }
{
    let Opened { readers, room } = opened;
    match line.summary_to {
        None => {
            let ended = replay_over(rt, alloc, readers, line.options, &room, out, error);
            RunReport::without_files(alloc, ended)
        }
        Some(file) => match files.create(file.name) {
            Ok(writer) => {
                let mut summary = SummaryWriter {
                    form: file.form,
                    writer,
                };
                let ended = replay_and_summarize_over(
                    rt,
                    alloc,
                    readers,
                    line.options,
                    &room,
                    out,
                    &mut summary,
                    error,
                );
                RunReport {
                    status: ended.status,
                    met: ended.met,
                    recorders: Vec::new(alloc),
                    output: None,
                    summary: Some(summary.writer),
                }
            }
            Err(cause) => {
                let status = fail_to_create_file(error, WrittenFile::Summary, cause);
                RunReport::unstarted(alloc, status)
            }
        },
    }
}
