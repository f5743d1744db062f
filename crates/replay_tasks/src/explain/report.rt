//! All that is printed once every file was replayed to be explained: the answers with their
//! explanations, and what failed.

ghost use Rattle.std.specs.Prelude.{◌≡◌, ◌≢◌, ◌↔◌, ◌<◌, ℕ, map, take, length, vec_items, IfSome};
ghost use Rattle.std.specs.Prelude.{IsErr, IsOk, OnOk};
ghost use Rattle.std.specs.Io.KnownBytes.{Appends, Keeps};
ghost use Rattle.replay_explanations.specs.Explainer.{text_of};
ghost use Rattle.replay_output.specs.Failures.{failure_lines, with_loss, NothingFailed};
ghost use Rattle.replay_output.specs.Line.{AreLines, answers_of};
ghost use Rattle.replay_output.specs.Lines.{lines_by};
ghost use Rattle.replay_output.specs.declared.options.style.Style.{Style};
ghost use Rattle.replay_tasks.specs.Explained.{TakesToExplain, explained_line, explanation_form};

use super::notes::explain_lines;
use replay_explanations::Explainer;
use replay_output::{
    Ending, Line, PrintError, ProxyFailure, Report, Status, note_loss, print_failures, print_report,
};
use std::alloc::Global;
use wire::Sink;

/// Puts the explanation of each answer under its line or into it, and prints all lines and what
/// failed, as [`print_report`] does. `received` and `failures` hold those of each proxy at its
/// number.
///
/// If memory is refused for an explanation, nothing is printed to `out`, and its proxy has a loss
/// from then on.
pub fn print_explained<O: Sink, E: Sink>(
    alloc: Global,
    out: &mut O,
    error: &mut E,
    received: &mut [Vec<Line>],
    explainer: &Explainer,
    failures: &mut [ProxyFailure],
    ending: Ending,
) -> Report
    requires proxies { length failures.old ≡ length received.old }
    ensures lines { (style : Style) → explanation_form style.form ≡ explainer.now.form
        → AreLines style (map vec_items received.old)
        → OnOk result.printed (Appends (O.given out.old) (O.given out.new)
        (lines_by (explained_line style (text_of explainer.now.texts))
        (map answers_of (map vec_items received.old)))) }
    ensures memory { (proxy : ℕ) → result.printed ≡ Err (PrintError.Memory proxy)
        → proxy < length received.old }
    ensures takes { (proxy : ℕ) → result.printed ≡ Err (PrintError.Memory proxy)
        → TakesToExplain (text_of explainer.now.texts) (map vec_items received.old) proxy }
    ensures nothing { (proxy : ℕ) → result.printed ≡ Err (PrintError.Memory proxy)
        → O.given out.new ≡ O.given out.old }
    ensures prefix { (style : Style) → explanation_form style.form ≡ explainer.now.form
        → AreLines style (map vec_items received.old)
        → result.printed ≡ Err PrintError.Write → IfSome (O.given out.new) (λ _. (n : ℕ)
        × Appends (O.given out.old) (O.given out.new)
        (take n (lines_by (explained_line style (text_of explainer.now.texts))
        (map answers_of (map vec_items received.old))))) }
    ensures write { (result.printed ≡ Err PrintError.Write)
        ↔ (O.failures out.old < O.failures out.new) }
    ensures failure_lines { OnOk result.reported (Appends (E.given error.old) (E.given error.new)
        (failure_lines failures.new ending)) }
    ensures reported { IsErr result.reported ↔ (E.failures error.old < E.failures error.new) }
    ensures loss { (proxy : ℕ) → result.printed ≡ Err (PrintError.Memory proxy)
        → failures.new ≡ with_loss proxy failures.old }
    ensures no_loss { ((proxy : ℕ) → result.printed ≢ Err (PrintError.Memory proxy))
        → failures.new ≡ failures.old }
    ensures done { result.status ≡ Status.Done
        ↔ (IsOk result.printed × IsOk result.reported × NothingFailed failures.old ending) }
    ensures quiet { result.status ≡ Status.Done → Keeps (E.given error.old) (E.given error.new) }
    ensures ends { result.status ≢ Status.Usage }
    ensures same { result.status ≢ Status.Differs }
{
    if let Err(proxy) = explain_lines(explainer, received) {
        return report_loss(error, proxy, failures, ending);
    }
    print_report(alloc, out, error, received, failures, ending)
}

/// Notes the loss of a proxy, and prints what failed. The answers aren't printed.
pub fn report_loss<E: Sink>(
    error: &mut E,
    proxy: usize,
    failures: &mut [ProxyFailure],
    ending: Ending,
) -> Report
    requires known { proxy < length failures.old }
    ensures printed { result.printed ≡ Err (PrintError.Memory proxy) }
    ensures loss { failures.new ≡ with_loss proxy failures.old }
    ensures failure_lines { OnOk result.reported (Appends (E.given error.old) (E.given error.new)
        (failure_lines failures.new ending)) }
    ensures reported { IsErr result.reported ↔ (E.failures error.old < E.failures error.new) }
    ensures status { result.status ≡ Status.Failed }
{
    note_loss(failures, proxy);
    let reported = print_failures(error, failures, ending);
    Report {
        printed: Err(PrintError::Memory(proxy)),
        reported,
        status: Status::Failed,
    }
}
