//! All that is printed once every file was replayed: the answers, and what failed.

ghost use Rattle.std.specs.Prelude.{◌≡◌, ◌≢◌, ◌↔◌, ◌<◌, ℕ, map, take, length, vec_items, IfSome};
ghost use Rattle.std.specs.Prelude.{IsErr, IsOk, OnOk};
ghost use Rattle.std.specs.Io.KnownBytes.{Appends, Keeps};
ghost use Rattle.replay_output.specs.Failures.{failure_lines, with_loss, NothingFailed};
ghost use Rattle.replay_output.specs.Line.{AreLinesBy, TakesToSort, answers_of};
ghost use Rattle.replay_output.specs.Lines.{Print, lines_by};

use crate::failures::{Ending, ProxyFailure, note_loss, nothing_failed, print_failures};
use crate::line::Line;
use crate::status::Status;
use std::alloc::Global;
use wire::{Failed, Sink};

mod lines;

pub use lines::{PrintError, print_answers, print_sorted, sort_lines};

/// What was printed, and how the program ends.
#[derive(Debug, Drop)]
pub struct Report {
    /// Whether the lines of all answers were written and flushed.
    pub printed: Result<(), PrintError>,
    /// Whether the lines of all failures were written.
    pub reported: Result<(), Failed>,
    pub status: Status,
}

/// Prints the lines of the answers to `out`, as [`print_answers`] does, and flushes it. Then prints
/// what failed to `error`, as [`print_failures`] does. `received` and `failures` hold those of each
/// proxy at its number.
///
/// If memory is refused while the lines of a proxy are sorted, that proxy has a loss from then on.
/// No memory is taken to sort up to 20 lines. A write or a flush that fails has no line.
pub fn print_report<O: Sink, E: Sink>(
    alloc: Global,
    out: &mut O,
    error: &mut E,
    received: &mut [Vec<Line>],
    failures: &mut [ProxyFailure],
    ending: Ending,
) -> Report
    requires proxies { length failures.old ≡ length received.old }
    ensures lines { (print : Print) → AreLinesBy print (map vec_items received.old)
        → OnOk result.printed (Appends (O.given out.old) (O.given out.new)
        (lines_by print (map answers_of (map vec_items received.old)))) }
    ensures memory { (proxy : ℕ) → result.printed ≡ Err (PrintError.Memory proxy)
        → proxy < length received.old }
    ensures takes { (proxy : ℕ) → result.printed ≡ Err (PrintError.Memory proxy)
        → TakesToSort (map vec_items received.old) proxy }
    ensures nothing { (proxy : ℕ) → result.printed ≡ Err (PrintError.Memory proxy)
        → O.given out.new ≡ O.given out.old }
    ensures prefix { (print : Print) → AreLinesBy print (map vec_items received.old)
        → result.printed ≡ Err PrintError.Write → IfSome (O.given out.new) (λ _. (n : ℕ)
        × Appends (O.given out.old) (O.given out.new)
        (take n (lines_by print (map answers_of (map vec_items received.old))))) }
    ensures write { (result.printed ≡ Err PrintError.Write)
        ↔ (O.failures out.old < O.failures out.new) }
    ensures failure_lines { OnOk result.reported (Appends (E.given error.old) (E.given error.new)
        (failure_lines failures.new ending)) }
    ensures reported { IsErr result.reported ↔ (E.failures error.old < E.failures error.new) }
    ensures loss { (proxy : ℕ) → result.printed ≡ Err (PrintError.Memory proxy)
        → failures.new ≡ with_loss proxy failures.old }
    ensures no_loss { ((proxy : ℕ) → result.printed ≢ Err (PrintError.Memory proxy))
        → failures.new ≡ failures.old }
    ensures done { result.status ≡ Status.Done
        ↔ (IsOk result.printed × IsOk result.reported × NothingFailed failures.old ending) }
    ensures quiet { result.status ≡ Status.Done → Keeps (E.given error.old) (E.given error.new) }
    ensures ends { result.status ≢ Status.Usage }
    ensures same { result.status ≢ Status.Differs }
{
    let printed = print_and_flush(alloc, out, received);
    if let Err(PrintError::Memory(proxy)) = printed {
        note_loss(failures, proxy);
    }
    let reported = print_failures(error, failures, ending);
    let clean = nothing_failed(failures, ending);
    Report {
        status: Status::of(clean && printed.is_ok() && reported.is_ok()),
        printed,
        reported,
    }
}

// A failed flush is a failed write. After an error of `print_answers` nothing is flushed.
fn print_and_flush<W: Sink>(
    alloc: Global,
    out: &mut W,
    received: &mut [Vec<Line>],
) -> Result<(), PrintError>
    ensures lines { (print : Print) → AreLinesBy print (map vec_items received.old)
        → OnOk result (Appends (W.given out.old) (W.given out.new)
        (lines_by print (map answers_of (map vec_items received.old)))) }
    ensures memory { (proxy : ℕ) → result ≡ Err (PrintError.Memory proxy)
        → proxy < length received.old }
    ensures takes { (proxy : ℕ) → result ≡ Err (PrintError.Memory proxy)
        → TakesToSort (map vec_items received.old) proxy }
    ensures nothing { (proxy : ℕ) → result ≡ Err (PrintError.Memory proxy)
        → W.given out.new ≡ W.given out.old }
    ensures prefix { (print : Print) → AreLinesBy print (map vec_items received.old)
        → result ≡ Err PrintError.Write
        → IfSome (W.given out.new) (λ _. (n : ℕ) × Appends (W.given out.old) (W.given out.new)
        (take n (lines_by print (map answers_of (map vec_items received.old))))) }
    ensures write { (result ≡ Err PrintError.Write) ↔ (W.failures out.old < W.failures out.new) }
{
    print_answers(alloc, out, received)?;
    out.flush().map_err(|_| PrintError::Write)
}
