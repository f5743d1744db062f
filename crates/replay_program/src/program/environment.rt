//! The words of the program's environment.

ghost use Rattle.std.specs.Prelude.{◌≡◌, ◌<◌, ◌⊎◌, ℕ, List};
ghost use Rattle.std.specs.Io.KnownBytes.{Appends};
ghost use Rattle.replay_program.specs.Ended.{HasDifferences, HasNoMemory, IsDone, IsFailed};
ghost use Rattle.replay_program.specs.Ended.{IsQuiet};
ghost use Rattle.replay_program.specs.Program.{HasReadNoText, ReportsLine, named_files, not_text};
ghost use Rattle.replay_program.specs.ShardedProgram.{regular_files};
ghost use Rattle.replay_tasks.specs.Replayed.{written};
ghost use Rattle.replay_stream.specs.Sinks.{state_by};
ghost use Rattle.replay_output.specs.Start.{start_line};
ghost use Rattle.replay_arguments.specs.Arguments.{IsMistaken};

use super::run;
use crate::report::RunReport;
use program_arguments::{ArgumentsError, read_arguments};
use replay_arguments::Files;
use replay_output::{StartError, Status, fail_to_start};
use std::alloc::Global;
use std::rt::Env;
use std::sync::Wait;
use std::thread::Threads;
use wire::{Sink, write_all};

/// Runs the program on the words of its environment, as [`run`] does. Words that can't be read as
/// text are refused, as mistaken ones are.
pub fn run_in<R: Threads + Wait + Copy + Send + 'static, V: Env, F: Files, O: Sink, E: Sink>(
    rt: &R,
    alloc: Global,
    environment: &V,
    files: &F,
    out: &mut O,
    error: &mut E,
) -> RunReport<F::Writer>
    ensures done { result.status ≡ Status.Done → (words : List (List ℕ))
        × IsDone (state_by F.Writer.given F.Writer.failures)
        (named_files (F.contents files.now) (F.has_opened files.now) (F.cannot_open files.now)
        (F.begun files.now) (F.has_created files.now) (F.cannot_create files.now)) words result
        (written (O.given out.old) (O.given out.new) (O.failures out.old) (O.failures out.new)) }
    ensures quiet { result.status ≡ Status.Done → (words : List (List ℕ))
        × IsQuiet (F.contents files.now) words
        (written (E.given error.old) (E.given error.new) (E.failures error.old)
        (E.failures error.new)) }
    ensures differs { result.status ≡ Status.Differs → (words : List (List ℕ))
        × HasDifferences (state_by F.Writer.given F.Writer.failures)
        (named_files (F.contents files.now) (F.has_opened files.now) (F.cannot_open files.now)
        (F.begun files.now) (F.has_created files.now) (F.cannot_create files.now)) words result
        (written (O.given out.old) (O.given out.new) (O.failures out.old) (O.failures out.new)) }
    ensures quiet_too { result.status ≡ Status.Differs → (words : List (List ℕ))
        × IsQuiet (F.contents files.now) words
        (written (E.given error.old) (E.given error.new) (E.failures error.old)
        (E.failures error.new)) }
    ensures failed { result.status ≡ Status.Failed → HasNoMemory
        (written (O.given out.old) (O.given out.new) (O.failures out.old) (O.failures out.new))
        (written (E.given error.old) (E.given error.new) (E.failures error.old)
        (E.failures error.new))
        ⊎ ((words : List (List ℕ)) × IsFailed (state_by F.Writer.given F.Writer.failures)
        (regular_files (F.is_regular files.now) (F.is_irregular files.now))
        (named_files (F.contents files.now) (F.has_opened files.now) (F.cannot_open files.now)
        (F.begun files.now) (F.has_created files.now) (F.cannot_create files.now)) words result
        (written (O.given out.old) (O.given out.new) (O.failures out.old) (O.failures out.new))
        (written (E.given error.old) (E.given error.new) (E.failures error.old)
        (E.failures error.new))) }
    ensures mistaken { result.status ≡ Status.Usage → HasReadNoText
        (written (O.given out.old) (O.given out.new) (O.failures out.old) (O.failures out.new))
        (written (E.given error.old) (E.given error.new) (E.failures error.old)
        (E.failures error.new))
        ⊎ ((words : List (List ℕ)) × IsMistaken words) }
    ensures nothing { result.status ≡ Status.Usage → O.given out.new ≡ O.given out.old }
    ensures usage { result.status ≡ Status.Usage → (text : List ℕ)
        × ReportsLine (written (E.given error.old) (E.given error.new) (E.failures error.old)
        (E.failures error.new)) text }
{
    match read_arguments(alloc, environment) {
        Ok(words) => run(rt, alloc, files, &words, out, error),
        Err(cause) => RunReport::unstarted(alloc, fail_to_read(error, cause)),
    }
}

// The message about arguments that aren't text, in the form of `clap`'s refusals.
const NOT_TEXT: &[u8] = b"error: invalid UTF-8 was detected in one or more arguments\n\n\
    Usage: replay [OPTIONS] <FILE>...\n\nFor more information, try '--help'.\n";

// Prints why the words can't be read, and returns how the program ends. A failed write changes
// nothing. Takes no memory.
fn fail_to_read<W: Sink>(error: &mut W, cause: ArgumentsError) -> Status
    ensures not_text { cause ≡ ArgumentsError.NotText → (result ≡ Status.Usage)
        × ((W.failures error.old < W.failures error.new)
        ⊎ Appends (W.given error.old) (W.given error.new) not_text) }
    ensures memory { cause ≡ ArgumentsError.Memory → (result ≡ Status.Failed)
        × ((W.failures error.old < W.failures error.new)
        ⊎ Appends (W.given error.old) (W.given error.new) (start_line StartError.Memory)) }
{
    match cause {
        ArgumentsError::NotText => {
            let _ = write_all(error, NOT_TEXT);
            Status::Usage
        }
        ArgumentsError::Memory => fail_to_start(error, StartError::Memory),
    }
}
