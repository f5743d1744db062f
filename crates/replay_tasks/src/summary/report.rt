//! All that is printed once every file was replayed to be summarized: the summary, and what failed.

ghost use Rattle.std.specs.Prelude.{◌≡◌, ◌≢◌, ◌↔◌, ◌<◌, ◌≤◌, ℕ, map, take, length, vec_items};
ghost use Rattle.std.specs.Prelude.{All, IfErr, IfOk, IfSome, IsErr, IsOk, OnOk};
ghost use Rattle.std.specs.Io.KnownBytes.{Appends, Keeps};
ghost use Rattle.keyspace.specs.storage.InOrder.{Rise, in_order_by};
ghost use Rattle.replay_output.specs.Failures.{failure_lines, with_loss, NothingFailed};
ghost use Rattle.replay_output.specs.Line.{AreLines, answers_of, counted_of_line, version_of_line};
ghost use Rattle.replay_output.specs.declared.options.style.Style.{Style};
ghost use Rattle.replay_tasks.specs.Summarized.{TakesToSummarize, run_summary, with_ranges};
ghost use Rattle.replay_summary.specs.Summary.{summary_of};
ghost use Rattle.replay_summary.specs.Text.{text};

use super::ranges::add_ranges;
use replay_output::{
    Ending, Line, PrintError, ProxyFailure, Report, Status, note_loss, nothing_failed,
    print_failures, sort_lines,
};
use replay_summary::{Occupancy, SummaryError, SummaryForm, summarize_all, summary_text};
use std::alloc::Global;
use wire::{Failed, Sink, write_and_flush};

/// Prints the summary of the answers, with how full the resolver was if that is given and with the
/// text of these ranges, to `out`, and flushes it. Then prints what failed to `error`, as
/// [`print_failures`] does. `received` holds the lines of each proxy at its number, in the order in
/// which the answers were received, and `failures` what failed of it. Without ranges their text is
/// empty.
///
/// If memory is refused while the lines of a proxy are sorted, nothing is printed to `out`, and
/// that proxy has a loss from then on. The last proxy has it if memory is refused for the summary,
/// or if a number of it is beyond 64 bits.
pub fn print_summary<O: Sink, E: Sink>(
    alloc: Global,
    out: &mut O,
    error: &mut E,
    received: &mut [Vec<Line>],
    form: SummaryForm,
    occupancy: Option<Occupancy>,
    ranges: &[u8],
    failures: &mut [ProxyFailure],
    ending: Ending,
) -> Report
    requires some { 1 ≤ length received.old }
    requires proxies { length failures.old ≡ length received.old }
    ensures lines { (style : Style) → AreLines style (map vec_items received.old)
        → OnOk result.printed (Appends (O.given out.old) (O.given out.new)
        (with_ranges form (run_summary form occupancy (map answers_of (map vec_items received.old)))
        ranges.now)) }
    ensures memory { (proxy : ℕ) → result.printed ≡ Err (PrintError.Memory proxy)
        → proxy < length received.old }
    ensures takes { (proxy : ℕ) → result.printed ≡ Err (PrintError.Memory proxy)
        → TakesToSummarize (map vec_items received.old) proxy }
    ensures nothing { (proxy : ℕ) → result.printed ≡ Err (PrintError.Memory proxy)
        → O.given out.new ≡ O.given out.old }
    ensures prefix { (style : Style) → AreLines style (map vec_items received.old)
        → result.printed ≡ Err PrintError.Write → IfSome (O.given out.new) (λ _. (n : ℕ)
        × Appends (O.given out.old) (O.given out.new)
        (take n (with_ranges form
        (run_summary form occupancy (map answers_of (map vec_items received.old)))
        ranges.now))) }
    ensures write { (result.printed ≡ Err PrintError.Write)
        ↔ (O.failures out.old < O.failures out.new) }
    ensures failure_lines { OnOk result.reported (Appends (E.given error.old) (E.given error.new)
        (failure_lines failures.new ending)) }
    ensures reported { IsErr result.reported ↔ (E.failures error.old < E.failures error.new) }
    ensures loss { (proxy : ℕ) → result.printed ≡ Err (PrintError.Memory proxy)
        → failures.new ≡ with_loss proxy failures.old }
    ensures no_loss { ((proxy : ℕ) → result.printed ≢ Err (PrintError.Memory proxy))
        → failures.new ≡ failures.old }
    ensures done { result.status ≡ Status.Done
        ↔ (IsOk result.printed × IsOk result.reported × NothingFailed failures.old ending) }
    ensures quiet { result.status ≡ Status.Done → Keeps (E.given error.old) (E.given error.new) }
    ensures ends { result.status ≢ Status.Usage }
    ensures same { result.status ≢ Status.Differs }
{
    let printed = print_text(alloc, out, received, form, occupancy, ranges);
    if let Err(PrintError::Memory(proxy)) = printed {
        note_loss(failures, proxy);
    }
    let reported = print_failures(error, failures, ending);
    let clean = nothing_failed(failures, ending);
    Report {
        status: Status::of(clean && printed.is_ok() && reported.is_ok()),
        printed,
        reported,
    }
}

fn print_text<W: Sink>(
    alloc: Global,
    out: &mut W,
    received: &mut [Vec<Line>],
    form: SummaryForm,
    occupancy: Option<Occupancy>,
    ranges: &[u8],
) -> Result<(), PrintError>
    requires some { 1 ≤ length received.old }
    ensures lines { (style : Style) → AreLines style (map vec_items received.old)
        → OnOk result (Appends (W.given out.old) (W.given out.new)
        (with_ranges form (run_summary form occupancy (map answers_of (map vec_items received.old)))
        ranges.now)) }
    ensures memory { (proxy : ℕ) → result ≡ Err (PrintError.Memory proxy)
        → proxy < length received.old }
    ensures takes { (proxy : ℕ) → result ≡ Err (PrintError.Memory proxy)
        → TakesToSummarize (map vec_items received.old) proxy }
    ensures nothing { (proxy : ℕ) → result ≡ Err (PrintError.Memory proxy)
        → W.given out.new ≡ W.given out.old }
    ensures prefix { (style : Style) → AreLines style (map vec_items received.old)
        → result ≡ Err PrintError.Write
        → IfSome (W.given out.new) (λ _. (n : ℕ) × Appends (W.given out.old) (W.given out.new)
        (take n (with_ranges form
        (run_summary form occupancy (map answers_of (map vec_items received.old)))
        ranges.now))) }
    ensures write { (result ≡ Err PrintError.Write) ↔ (W.failures out.old < W.failures out.new) }
{
    let made = match text_of(alloc, received, form, occupancy, ranges) {
        Ok(made) => made,
        Err(proxy) => return Err(PrintError::Memory(proxy)),
    };
    match write_and_flush(out, &made) {
        Ok(()) => Ok(()),
        Err(Failed) => Err(PrintError::Write),
    }
}

/// Sorts the lines, and returns the text of their summaries with that of these ranges. An error is
/// the proxy whose lines could not be sorted, or the last one if there is no summary.
pub fn text_of(
    alloc: Global,
    received: &mut [Vec<Line>],
    form: SummaryForm,
    occupancy: Option<Occupancy>,
    ranges: &[u8],
) -> Result<Vec<u8>, usize>
    requires some { 1 ≤ length received.old }
    ensures text { (style : Style) → AreLines style (map vec_items received.old)
        → IfOk result (λ made. made.items
        ≡ with_ranges form
        (run_summary form occupancy (map answers_of (map vec_items received.old)))
        ranges.now) }
    ensures sorted { OnOk result (map vec_items received.new
        ≡ map (in_order_by version_of_line) (map vec_items received.old)) }
    ensures proxy { IfErr result (λ proxy. proxy < length received.old) }
    ensures takes { IfErr result (TakesToSummarize (map vec_items received.old)) }
{
    sort_lines(alloc, received)?;
    let last = received.len() - 1;
    match text_of_sorted(alloc, received, form, occupancy, ranges) {
        Ok(made) => Ok(made),
        Err(_) => Err(last),
    }
}

// Returns the text of the summaries of lines that are sorted, with that of these ranges.
fn text_of_sorted(
    alloc: Global,
    sorted: &[Vec<Line>],
    form: SummaryForm,
    occupancy: Option<Occupancy>,
    ranges: &[u8],
) -> Result<Vec<u8>, SummaryError>
    requires rise { All (Rise version_of_line) (map vec_items sorted.now) }
    ensures text { IfOk result (λ made. made.items ≡ with_ranges form (text form occupancy
        (map (λ lines. summary_of (map counted_of_line lines)) (map vec_items sorted.now)))
        ranges.now) }
{
    let summaries = summarize_all(alloc, sorted)?;
    let mut made = summary_text(alloc, &summaries, occupancy, form)?;
    match add_ranges(&mut made, form, ranges) {
        Ok(()) => Ok(made),
        Err(_) => Err(SummaryError::Memory),
    }
}
