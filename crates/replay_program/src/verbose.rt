//! What is said of a run beside its fixed lines: one line that names what was found and says what
//! to do. `held` has that of a run that didn't fail.

ghost use Rattle.std.specs.Prelude.{◌≡◌, ◌⊎◌, ℕ, IfSome, List, Some};
ghost use Rattle.keyspace.specs.declared.batch.Batch.{Batch as BatchValue};
ghost use Rattle.replay_diagnosis.specs.Following.{HasLeast};
ghost use Rattle.replay_diagnosis.specs.Remedy.{remedy_line, run_remedy_line};
ghost use Rattle.replay_program.specs.Program.{texts};
ghost use Rattle.replay_tasks.specs.Replayed.{written};
ghost use Rattle.replay_tasks.specs.Summarized.{TookUnlessFailed};
ghost use Rattle.replay_program.specs.Verbose.{IsExplained, IsFoundOf, IsGateFinding};

use files::{FileFinding, examine_files};
use limits::Stop;
use replay_arguments::{CommandLine, Files};
use replay_diagnosis::{FileBatches, RunFinding, write_remedy, write_run_remedy};
use replay_tasks::Met;
use std::alloc::Global;
use wire::Sink;

mod files;
mod held;

pub use held::say_if_held;

/// Opens the files of batches of a command line once more, and writes one line about the first that
/// can't be opened or has something else than frames of batches. If there is none, the line is
/// about the run, which met this. Writes nothing if there is no finding, or if memory is refused. A
/// failed write changes nothing.
pub fn explain_failure<F: Files, E: Sink>(
    alloc: Global,
    files: &F,
    line: &CommandLine,
    met: Met,
    error: &mut E,
)
    ensures explained { IsExplained (F.contents files.now) (F.cannot_open files.now)
        (texts line.now.files.items) line.now.options.limit met
        (written (E.given error.old) (E.given error.new) (E.failures error.old)
        (E.failures error.new)) }
{
    let batches = match examine_files(alloc, files, &line.files) {
        Ok(batches) => batches,
        Err(found) => return say_of_file(alloc, error, &found),
    };
    let Some(finding) = run_finding(met, &batches, line.options.limit) else {
        return;
    };
    say_of_run(alloc, error, &finding)
}

// Writes the line about a file.
fn say_of_file<E: Sink>(alloc: Global, error: &mut E, found: &FileFinding)
    ensures said { (E.given error.new ≡ E.given error.old)
        ⊎ TookUnlessFailed (written (E.given error.old) (E.given error.new) (E.failures error.old)
        (E.failures error.new)) (remedy_line found.now.name.now found.now.finding) }
{
    let _ = write_remedy(alloc, error, found.name, &found.finding);
}

// Writes the line about a run.
fn say_of_run<E: Sink>(alloc: Global, error: &mut E, finding: &RunFinding)
    ensures said { (E.given error.new ≡ E.given error.old)
        ⊎ TookUnlessFailed (written (E.given error.old) (E.given error.new) (E.failures error.old)
        (E.failures error.new)) (run_remedy_line finding.now) }
{
    let _ = write_run_remedy(alloc, error, finding);
}

// Returns the finding of a run that met this, over files with these batches and with this limit of
// boundaries.
fn run_finding(met: Met, batches: &FileBatches, limit: usize) -> Option<RunFinding>
    ensures found { IfSome result (λ finding. (all : List BatchValue)
        → HasLeast all batches.now.least_previous → IsFoundOf limit met all finding) }
{
    let Some(stop) = met.stop else {
        return output_finding(met);
    };
    match stop {
        Stop::GateFull => Some(gate_finding(batches)),
        Stop::ArenaFull => arena_finding(met, limit),
        Stop::Memory => output_finding(met),
    }
}

// Returns the finding about a full gate, if the files have these batches.
fn gate_finding(batches: &FileBatches) -> RunFinding
    ensures found { (all : List BatchValue) → HasLeast all batches.now.least_previous
        → IsGateFinding all result }
{
    match batches.held_from() {
        Some(version) => RunFinding::AllHeld(version),
        None => RunFinding::GateFull,
    }
}

// Returns the finding about the limit of boundaries, if the version that the run reached is known.
// Otherwise returns that about the output.
fn arena_finding(met: Met, limit: usize) -> Option<RunFinding>
    requires stop { met.stop ≡ Some Stop.ArenaFull }
    ensures found { IfSome result (λ finding. (all : List BatchValue)
        → IsFoundOf limit met all finding) }
{
    match met.version {
        Some(version) => Some(RunFinding::ArenaFull { version, limit }),
        None => output_finding(met),
    }
}

// Returns the finding about the output, if it has failed.
fn output_finding(met: Met) -> Option<RunFinding>
    ensures found { (limit : ℕ) → IfSome result (λ finding. (all : List BatchValue)
        → IsFoundOf limit met all finding) }
{
    if met.output_failed {
        return Some(RunFinding::Output);
    }
    None
}
