//! The program, over any words, files and streams.

ghost use Rattle.std.specs.Prelude.{◌≡◌, ℕ, List, map, string_bytes};
ghost use Rattle.replay_arguments.specs.Arguments.{IsMistaken};
ghost use Rattle.replay_program.specs.Ended.{HasDifferences, IsDone, IsFailed, IsQuiet};
ghost use Rattle.replay_program.specs.Program.{ReportsLine, named_files};
ghost use Rattle.replay_tasks.specs.Replayed.{written};
ghost use Rattle.replay_program.specs.ShardedProgram.{regular_files};
ghost use Rattle.replay_stream.specs.Sinks.{state_by};

use crate::report::RunReport;
use replay_arguments::{Files, read_words};
use replay_output::Status;
use std::alloc::Global;
use std::sync::Wait;
use std::thread::Threads;
use wire::Sink;

mod comparison;
mod environment;
mod line;
mod opened;
mod printed_answers;
mod several_resolvers;
mod streamed_answers;
mod task;

pub use environment::run_in;
use line::run_line;
use several_resolvers::run_line_sharded;

/// Runs the program on the words of its command line, of which the first is the program's name.
/// Help is printed to `out`, and the reason of a refusal to `error`. Else the files of batches are
/// opened, the file for the output is created, if one is named, and the task is done.
pub fn run<R: Threads + Wait + Copy + Send + 'static, F: Files, O: Sink, E: Sink>(
    rt: &R,
    alloc: Global,
    files: &F,
    words: &[String],
    out: &mut O,
    error: &mut E,
) -> RunReport<F::Writer>
    ensures done { result.status ≡ Status.Done
        → IsDone (state_by F.Writer.given F.Writer.failures)
        (named_files (F.contents files.now) (F.has_opened files.now) (F.cannot_open files.now)
        (F.begun files.now) (F.has_created files.now) (F.cannot_create files.now))
        (map string_bytes words.now) result
        (written (O.given out.old) (O.given out.new) (O.failures out.old) (O.failures out.new)) }
    ensures quiet { result.status ≡ Status.Done
        → IsQuiet (F.contents files.now) (map string_bytes words.now)
        (written (E.given error.old) (E.given error.new) (E.failures error.old)
        (E.failures error.new)) }
    ensures quiet_too { result.status ≡ Status.Differs
        → IsQuiet (F.contents files.now) (map string_bytes words.now)
        (written (E.given error.old) (E.given error.new) (E.failures error.old)
        (E.failures error.new)) }
    ensures failed { result.status ≡ Status.Failed
        → IsFailed (state_by F.Writer.given F.Writer.failures)
        (regular_files (F.is_regular files.now) (F.is_irregular files.now))
        (named_files (F.contents files.now) (F.has_opened files.now) (F.cannot_open files.now)
        (F.begun files.now) (F.has_created files.now) (F.cannot_create files.now))
        (map string_bytes words.now) result
        (written (O.given out.old) (O.given out.new) (O.failures out.old) (O.failures out.new))
        (written (E.given error.old) (E.given error.new) (E.failures error.old)
        (E.failures error.new)) }
    ensures mistaken { result.status ≡ Status.Usage → IsMistaken (map string_bytes words.now) }
    ensures nothing { result.status ≡ Status.Usage → O.given out.new ≡ O.given out.old }
    ensures usage { result.status ≡ Status.Usage → (text : List ℕ)
        × ReportsLine (written (E.given error.old) (E.given error.new) (E.failures error.old)
        (E.failures error.new)) text }
    ensures differs { result.status ≡ Status.Differs
        → HasDifferences (state_by F.Writer.given F.Writer.failures)
        (named_files (F.contents files.now) (F.has_opened files.now) (F.cannot_open files.now)
        (F.begun files.now) (F.has_created files.now) (F.cannot_create files.now))
        (map string_bytes words.now) result
        (written (O.given out.old) (O.given out.new) (O.failures out.old) (O.failures out.new)) }
{
    match read_words(alloc, words) {
        Ok(line) if line.sharding.is_several() => {
            run_line_sharded(rt, alloc, files, &line, out, error)
        }
        Ok(line) => run_line(rt, alloc, files, &line, out, error),
        Err(refusal) => RunReport::unstarted(alloc, refusal.end(out, error)),
    }
}
