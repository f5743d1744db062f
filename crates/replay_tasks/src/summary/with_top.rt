//! A summary with the ranges that conflict most.

ghost use Rattle.std.specs.Prelude.{◌≡◌, ◌≢◌, ◌↔◌, ◌<◌, ◌≤◌, ℕ, Err, List, map, length, vec_items};
ghost use Rattle.std.specs.Prelude.{IsErr, IsOk, OnOk};
ghost use Rattle.std.specs.Io.KnownBytes.{Appends, Keeps};
ghost use Rattle.keyspace.specs.Chain.{IsChain};
ghost use Rattle.keyspace.specs.Processed.{Processed};
ghost use Rattle.replay_hot_ranges.specs.HotRanges.{HasSeen};
ghost use Rattle.replay_output.specs.Failures.{failure_lines, with_loss, NothingFailed};
ghost use Rattle.replay_output.specs.Line.{AreLines, answers_of};
ghost use Rattle.replay_output.specs.declared.options.style.Style.{Style};
ghost use Rattle.replay_tasks.specs.Replayed.{written};
ghost use Rattle.replay_tasks.specs.Summarized.{PrintsWithTop, TakesToSummarize};

use super::ranges::{TopRequest, text_of_top};
use super::report::print_summary;
use crate::explain::report_loss;
use replay_hot_ranges::HotRanges;
use replay_output::{Ending, Line, PrintError, ProxyFailure, Report, Status};
use replay_summary::Occupancy;
use std::alloc::Global;
use wire::Sink;

/// Prints the summary of the answers with the ranges that conflict most, and what failed, as
/// [`print_summary`] does. If memory is refused for the ranges, nothing is printed to `out`, and
/// the last proxy has a loss from then on.
pub fn print_with_top<O: Sink, E: Sink>(
    alloc: Global,
    out: &mut O,
    error: &mut E,
    received: &mut [Vec<Line>],
    wanted: TopRequest,
    occupancy: Occupancy,
    hot: &HotRanges,
    failures: &mut [ProxyFailure],
    ending: Ending,
) -> Report
    requires some { 1 ≤ length received.old }
    requires proxies { length failures.old ≡ length received.old }
    ensures top { (style : Style) (processed : List Processed)
        → AreLines style (map vec_items received.old) → HasSeen hot.now processed
        → IsChain hot.now.history.window processed
        → PrintsWithTop wanted.form wanted.most occupancy processed
        (map answers_of (map vec_items received.old)) result.printed
        (written (O.given out.old) (O.given out.new) (O.failures out.old) (O.failures out.new)) }
    ensures memory { (proxy : ℕ) → result.printed ≡ Err (PrintError.Memory proxy)
        → proxy < length received.old }
    ensures takes { (proxy : ℕ) → result.printed ≡ Err (PrintError.Memory proxy)
        → TakesToSummarize (map vec_items received.old) proxy }
    ensures nothing { (proxy : ℕ) → result.printed ≡ Err (PrintError.Memory proxy)
        → O.given out.new ≡ O.given out.old }
    ensures write { (result.printed ≡ Err PrintError.Write)
        ↔ (O.failures out.old < O.failures out.new) }
    ensures failure_lines { OnOk result.reported (Appends (E.given error.old) (E.given error.new)
        (failure_lines failures.new ending)) }
    ensures reported { IsErr result.reported ↔ (E.failures error.old < E.failures error.new) }
    ensures loss { (proxy : ℕ) → result.printed ≡ Err (PrintError.Memory proxy)
        → failures.new ≡ with_loss proxy failures.old }
    ensures no_loss { ((proxy : ℕ) → result.printed ≢ Err (PrintError.Memory proxy))
        → failures.new ≡ failures.old }
    ensures done { result.status ≡ Status.Done
        ↔ (IsOk result.printed × IsOk result.reported × NothingFailed failures.old ending) }
    ensures quiet { result.status ≡ Status.Done → Keeps (E.given error.old) (E.given error.new) }
    ensures ends { result.status ≢ Status.Usage }
    ensures same { result.status ≢ Status.Differs }
{
    match text_of_top(alloc, hot, wanted) {
        Ok(ranges) => print_summary(
            alloc,
            out,
            error,
            received,
            wanted.form,
            Some(occupancy),
            &ranges,
            failures,
            ending,
        ),
        Err(_) => report_loss(error, failures.len() - 1, failures, ending),
    }
}
