//! All that is printed and written once every file was replayed: the answers, their summary beside
//! them, and what failed.

ghost use Rattle.std.specs.Prelude.{◌≡◌, ◌≢◌, ◌↔◌, ◌<◌, ◌≤◌, ℕ, IfSome, IsOk, IsTrue, OnErr, OnOk};
ghost use Rattle.std.specs.Prelude.{length, map, take, true, vec_items};
ghost use Rattle.std.specs.Io.KnownBytes.{Appends, Keeps};
ghost use Rattle.replay_output.specs.Failures.{NothingFailed};
ghost use Rattle.replay_output.specs.Line.{AreLines, answers_of, texts};
ghost use Rattle.replay_output.specs.Lines.{lines};
ghost use Rattle.replay_output.specs.declared.options.style.Style.{Style};
ghost use Rattle.replay_tasks.specs.Replayed.{written};
ghost use Rattle.replay_tasks.specs.Summarized.{BothFailed, run_summary};

use super::report::text_of;
use crate::explain::report_loss;
use replay_output::{
    Ending, Line, ProxyFailure, Status, nothing_failed, print_failures, print_sorted,
};
use replay_summary::{Occupancy, SummaryForm};
use std::alloc::Global;
use wire::{Failed, Sink, write_and_flush};

/// The writer of a summary, and its form.
#[derive(Drop)]
pub struct SummaryWriter<W> {
    pub form: SummaryForm,
    pub writer: W,
}

/// What became of the output beside a summary, and how the program ends.
#[derive(Clone, Copy, Debug)]
pub struct BesideReport {
    pub status: Status,
    /// The writer of the output has failed.
    pub output_failed: bool,
}

/// Sorts the lines of the answers, prints them to `out` and writes their summary, with how full the
/// resolver was if that is given. Then prints what failed to `error`, as [`print_failures`] does.
/// `received` and `failures` hold those of each proxy at its number. If one writer fails, the other
/// is given its text all the same.
///
/// If memory is refused, neither text is begun. A proxy whose lines could not be sorted has a loss
/// then, or the last one if there is no summary.
pub fn print_with_summary<O: Sink, T: Sink, E: Sink>(
    alloc: Global,
    out: &mut O,
    summary: &mut SummaryWriter<T>,
    error: &mut E,
    received: &mut [Vec<Line>],
    occupancy: Option<Occupancy>,
    failures: &mut [ProxyFailure],
    ending: Ending,
) -> BesideReport
    requires some { 1 ≤ length received.old }
    requires proxies { length failures.old ≡ length received.old }
    ensures done { (style : Style) → AreLines style (map vec_items received.old)
        → result.status ≡ Status.Done
        → Appends (O.given out.old) (O.given out.new)
        (lines style (map answers_of (map vec_items received.old)))
        × Appends (T.given summary.old.writer) (T.given summary.new.writer)
        (run_summary summary.old.form occupancy
        (map answers_of (map vec_items received.old))) }
    ensures nothing_failed { result.status ≡ Status.Done → NothingFailed failures.old ending }
    ensures quiet { result.status ≡ Status.Done → Keeps (E.given error.old) (E.given error.new) }
    ensures failed { (style : Style) → AreLines style (map vec_items received.old)
        → result.status ≡ Status.Failed
        → BothFailed summary.old.form occupancy style (map vec_items received.old) failures.old
        ending
        (written (O.given out.old) (O.given out.new) (O.failures out.old) (O.failures out.new))
        (written (T.given summary.old.writer) (T.given summary.new.writer)
        (T.failures summary.old.writer) (T.failures summary.new.writer))
        (written (E.given error.old) (E.given error.new) (E.failures error.old)
        (E.failures error.new)) }
    ensures output_failed { result.output_failed ≡ true → O.failures out.old < O.failures out.new }
    ensures ends { result.status ≢ Status.Usage }
    ensures same { result.status ≢ Status.Differs }
{
    let text = match text_of(alloc, received, summary.form, occupancy, b"") {
        Ok(text) => text,
        Err(proxy) => {
            return BesideReport {
                status: report_loss(error, proxy, failures, ending).status,
                output_failed: false,
            };
        }
    };
    let printed = print_and_flush(out, received);
    let put = write_and_flush(&mut summary.writer, &text);
    let reported = print_failures(error, failures, ending);
    let output_failed = printed.is_err();
    BesideReport {
        status: status_of(nothing_failed(failures, ending), printed, put, reported),
        output_failed,
    }
}

// Returns how the program ends, by whether nothing failed and each text was written.
fn status_of(
    is_clean: bool,
    printed: Result<(), Failed>,
    put: Result<(), Failed>,
    reported: Result<(), Failed>,
) -> Status
    ensures done { result ≡ Status.Done
        ↔ (IsTrue is_clean × IsOk printed × IsOk put × IsOk reported) }
    ensures ends { result ≢ Status.Usage }
    ensures same { result ≢ Status.Differs }
{
    Status::of(is_clean && printed.is_ok() && put.is_ok() && reported.is_ok())
}

// Prints lines that are sorted, and flushes.
fn print_and_flush<W: Sink>(out: &mut W, sorted: &[Vec<Line>]) -> Result<(), Failed>
    ensures entire { OnOk result (Appends (W.given out.old) (W.given out.new)
        (texts (map vec_items sorted.now))) }
    ensures prefix { OnErr result (IfSome (W.given out.new) (λ _.
        (n : ℕ) × Appends (W.given out.old) (W.given out.new)
        (take n (texts (map vec_items sorted.now))))) }
    ensures ok { OnOk result (W.failures out.new ≡ W.failures out.old) }
    ensures failed { OnErr result (W.failures out.old < W.failures out.new) }
{
    print_sorted(out, sorted)?;
    out.flush()
}
