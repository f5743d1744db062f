//! All that is printed once every file was replayed to be checked: the differences, and what
//! failed.

ghost use Rattle.std.specs.Prelude.{◌≡◌, ◌≢◌, ◌↔◌, ◌<◌, ◌≤◌, ◌+◌, ◌⊎◌, ℕ, map, take, length};
ghost use Rattle.std.specs.Prelude.{vec_items, vec_len, IfErr, IfOk, IfSome, IsErr, IsOk, IsOkAnd};
ghost use Rattle.std.specs.Prelude.{IsTrue, OnOk};
ghost use Rattle.std.specs.Io.KnownBytes.{Appends, Keeps};
ghost use Rattle.checking.specs.Check.{count_at};
ghost use Rattle.replay_tasks.specs.Checked.{KeepReplies, TakesToCompare, check_lines};
ghost use Rattle.replay_tasks.specs.Checked.{count_lines, differences_of, replies_kept};
ghost use Rattle.replay_output.specs.Failures.{failure_lines, with_loss, NothingFailed};
ghost use Rattle.replay_output.specs.Line.{answers_of};

use checking::{Checked, check_all};
use keyspace::Reply;
use replay_output::{
    Ending, Line, PrintError, ProxyFailure, Status, note_loss, nothing_failed, print_failures,
};
use std::alloc::{AllocError, Global};
use wire::{Failed, Sink, write_and_flush};

/// What was printed of a check, and how the program ends.
#[derive(Debug, Drop)]
pub struct CheckReport {
    /// How many differences there are, where their lines were written and flushed.
    pub printed: Result<usize, PrintError>,
    /// Whether the lines of all failures were written.
    pub reported: Result<(), Failed>,
    pub status: Status,
}

/// Prints a line for each difference between the replies that the kept answers expect and those
/// that were recorded, and a last line that counts them, to `out`, and flushes it. Then prints what
/// failed to `error`, as [`print_failures`] does. All four hold what is of each proxy at its
/// number.
///
/// If an allocation fails while the replies of a proxy are compared, nothing is printed to `out`,
/// and that proxy has a loss from then on. The last proxy has it if the allocation is for all of
/// them, or for the last line.
pub fn print_check<O: Sink, E: Sink>(
    alloc: Global,
    out: &mut O,
    error: &mut E,
    received: Vec<Vec<Line>>,
    recorded: Vec<Vec<Reply>>,
    failures: &mut [ProxyFailure],
    ending: Ending,
) -> CheckReport
    requires some { 1 ≤ vec_len received }
    requires as_many { vec_len received ≡ vec_len recorded }
    requires proxies { length failures.old ≡ vec_len received }
    ensures lines { KeepReplies (map vec_items received.items)
        → OnOk result.printed (Appends (O.given out.old) (O.given out.new)
        (check_lines (map vec_items recorded.items)
        (map answers_of (map vec_items received.items)))) }
    ensures count { KeepReplies (map vec_items received.items)
        → IfOk result.printed (λ count.
        count ≡ differences_of (map vec_items recorded.items)
        (map answers_of (map vec_items received.items))) }
    ensures memory { (proxy : ℕ) → result.printed ≡ Err (PrintError.Memory proxy)
        → proxy < vec_len received }
    ensures takes { (proxy : ℕ) → result.printed ≡ Err (PrintError.Memory proxy)
        → TakesToCompare (map vec_items recorded.items) (map vec_items received.items) proxy }
    ensures nothing { (proxy : ℕ) → result.printed ≡ Err (PrintError.Memory proxy)
        → O.given out.new ≡ O.given out.old }
    ensures prefix { KeepReplies (map vec_items received.items)
        → result.printed ≡ Err PrintError.Write → IfSome (O.given out.new) (λ _. (n : ℕ)
        × Appends (O.given out.old) (O.given out.new)
        (take n (check_lines (map vec_items recorded.items)
        (map answers_of (map vec_items received.items))))) }
    ensures write { (result.printed ≡ Err PrintError.Write)
        ↔ (O.failures out.old < O.failures out.new) }
    ensures failure_lines { OnOk result.reported (Appends (E.given error.old) (E.given error.new)
        (failure_lines failures.new ending)) }
    ensures reported { IsErr result.reported ↔ (E.failures error.old < E.failures error.new) }
    ensures loss { (proxy : ℕ) → result.printed ≡ Err (PrintError.Memory proxy)
        → failures.new ≡ with_loss proxy failures.old }
    ensures no_loss { ((proxy : ℕ) → result.printed ≢ Err (PrintError.Memory proxy))
        → failures.new ≡ failures.old }
    ensures done { result.status ≡ Status.Done
        → ((result.printed ≡ Ok 0) × IsOk result.reported × NothingFailed failures.old ending) }
    ensures differs { result.status ≡ Status.Differs
        → (IsOkAnd result.printed (λ count. count ≢ 0) × IsOk result.reported
        × NothingFailed failures.old ending) }
    ensures failed { result.status ≡ Status.Failed
        → ¬ (IsOk result.printed × IsOk result.reported × NothingFailed failures.old ending) }
    ensures quiet { result.status ≢ Status.Failed → Keeps (E.given error.old) (E.given error.new) }
    ensures ends { result.status ≢ Status.Usage }
{
    let printed = print_differences(alloc, out, received, recorded);
    if let Err(PrintError::Memory(proxy)) = printed {
        note_loss(failures, proxy);
    }
    let reported = print_failures(error, failures, ending);
    let clean = nothing_failed(failures, ending);
    CheckReport {
        status: status_of(clean && reported.is_ok(), &printed),
        printed,
        reported,
    }
}

// Returns how the program ends where nothing else failed, or something did.
fn status_of(clean: bool, printed: &Result<usize, PrintError>) -> Status
    ensures done { result ≡ Status.Done ↔ (IsTrue clean × (printed.now ≡ Ok 0)) }
    ensures differs { result ≡ Status.Differs
        ↔ (IsTrue clean × IsOkAnd printed.now (λ count. count ≢ 0)) }
    ensures ends { result ≢ Status.Usage }
{
    match printed {
        Ok(0) if clean => Status::Done,
        Ok(_) if clean => Status::Differs,
        _ => Status::Failed,
    }
}

// A failed flush is a failed write.
fn print_differences<W: Sink>(
    alloc: Global,
    out: &mut W,
    received: Vec<Vec<Line>>,
    recorded: Vec<Vec<Reply>>,
) -> Result<usize, PrintError>
    requires some { 1 ≤ vec_len received }
    requires as_many { vec_len received ≡ vec_len recorded }
    ensures lines { KeepReplies (map vec_items received.items)
        → OnOk result (Appends (W.given out.old) (W.given out.new)
        (check_lines (map vec_items recorded.items)
        (map answers_of (map vec_items received.items)))) }
    ensures count { KeepReplies (map vec_items received.items) → IfOk result (λ count.
        count ≡ differences_of (map vec_items recorded.items)
        (map answers_of (map vec_items received.items))) }
    ensures memory { (proxy : ℕ) → result ≡ Err (PrintError.Memory proxy)
        → proxy < vec_len received }
    ensures takes { (proxy : ℕ) → result ≡ Err (PrintError.Memory proxy)
        → TakesToCompare (map vec_items recorded.items) (map vec_items received.items) proxy }
    ensures nothing { (proxy : ℕ) → result ≡ Err (PrintError.Memory proxy)
        → W.given out.new ≡ W.given out.old }
    ensures prefix { KeepReplies (map vec_items received.items)
        → result ≡ Err PrintError.Write
        → IfSome (W.given out.new) (λ _. (n : ℕ) × Appends (W.given out.old) (W.given out.new)
        (take n (check_lines (map vec_items recorded.items)
        (map answers_of (map vec_items received.items))))) }
    ensures write { (result ≡ Err PrintError.Write) ↔ (W.failures out.old < W.failures out.new) }
    ensures least_failures { W.failures out.old ≤ W.failures out.new }
{
    let checked = match check_received(alloc, received, recorded) {
        Ok(checked) => checked,
        Err(proxy) => return Err(PrintError::Memory(proxy)),
    };
    match write_and_flush(out, &checked.text) {
        Ok(()) => Ok(checked.difference_count),
        Err(Failed) => Err(PrintError::Write),
    }
}

// Compares the replies that were kept with those that were recorded. An error is the proxy for
// which memory was refused.
fn check_received(
    alloc: Global,
    received: Vec<Vec<Line>>,
    recorded: Vec<Vec<Reply>>,
) -> Result<Checked, usize>
    requires some { 1 ≤ vec_len received }
    requires as_many { vec_len received ≡ vec_len recorded }
    ensures text { KeepReplies (map vec_items received.items) → IfOk result (λ checked.
        checked.text.items ≡ check_lines (map vec_items recorded.items)
        (map answers_of (map vec_items received.items))) }
    ensures differences { KeepReplies (map vec_items received.items)
        → IfOk result (λ checked.
        checked.difference_count ≡ differences_of (map vec_items recorded.items)
        (map answers_of (map vec_items received.items))) }
    ensures proxy { IfErr result (λ proxy. proxy < vec_len received) }
    ensures takes { IfErr result (TakesToCompare (map vec_items recorded.items)
        (map vec_items received.items)) }
{
    let Some(batches) = count_lines(&received) else {
        return Err(received.len() - 1);
    };
    let kept = kept_each(alloc, received)?;
    check_all(alloc, batches, kept, recorded)
}

// Returns how many lines there are, if the number fits.
fn count_lines(received: &[Vec<Line>]) -> Option<usize>
    ensures count { IfSome result (λ count. count ≡ count_lines (map vec_items received.now)) }
{
    let mut count: usize = 0;
    for lines in received {
        count = count.checked_add(lines.len())?;
    }
    Some(count)
}

// Returns the kept replies of each proxy. An error is the proxy for which an allocation failed, or
// the last one if it was for all.
fn kept_each(alloc: Global, received: Vec<Vec<Line>>) -> Result<Vec<Vec<Reply>>, usize>
    requires some { 1 ≤ vec_len received }
    ensures kept { IfOk result (λ kept. map vec_items kept.items
        ≡ map replies_kept (map vec_items received.items)) }
    ensures count { IfOk result (λ kept. vec_len kept ≡ vec_len received) }
    ensures proxy { IfErr result (λ proxy. proxy < vec_len received) }
    ensures takes { IfErr result (λ proxy. (1 ≤ count_at (map vec_items received.items) proxy)
        ⊎ (proxy + 1 ≡ vec_len received)) }
{
    let last = received.len() - 1;
    let Ok(mut kept) = Vec::with_capacity(alloc, received.len()) else {
        return Err(last);
    };
    for lines in received {
        let proxy = kept.len();
        let Ok(replies) = kept_of(alloc, lines) else {
            return Err(proxy);
        };
        kept.push_reserved(replies);
    }
    Ok(kept)
}

// Returns the replies that these lines keep.
fn kept_of(alloc: Global, lines: Vec<Line>) -> Result<Vec<Reply>, AllocError>
    ensures kept { IfOk result (λ kept. kept.items ≡ replies_kept lines.items) }
    ensures none { vec_len lines ≡ 0 → IsOk result }
{
    let mut kept = Vec::new(alloc);
    for line in lines {
        let Line { reply, .. } = line;
        if let Some(reply) = reply {
            kept.push(reply)?;
        }
    }
    Ok(kept)
}
