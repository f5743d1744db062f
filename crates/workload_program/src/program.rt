//! The program, over any words and streams.

ghost use Rattle.std.specs.Prelude.{◌≡◌, ◌≢◌, ◌⊎◌, ◌<◌, ◌≤◌, ℕ, List, true, false, length, map};
ghost use Rattle.std.specs.Prelude.{string_bytes, Ok, Err, IfErr, IfOk, OnErr, OnOk};
ghost use Rattle.std.specs.Io.KnownBytes.{Appends};
ghost use Rattle.workload_program.specs.Fault.{IsReported, line_of, expected_line};
ghost use Rattle.workload_program.specs.Command.{AsksForText, AsksForTextAlone};
ghost use Rattle.workload_program.specs.Run.{AreAskedFor, AskForNothing, BreakOffAsked};
ghost use Rattle.workload_program.specs.Arguments.{usage_lines};
ghost use Rattle.workload_program.specs.declared.fault.Fault.{Fault as FaultValue};

use crate::fault::{Fault, fail};
use crate::generate::write_batches;
use crate::words::{USAGE, asked_text, read_words, refuse};
use std::alloc::Global;
use wire::{Failed, Sink, write_and_flush};

// Prints the text.
fn show<W: Sink>(out: &mut W, text: &str) -> Result<(), Failed>
    ensures text { OnOk result (Appends (W.given out.old) (W.given out.new) text.now) }
    ensures ok { OnOk result (W.failures out.new ≡ W.failures out.old) }
    ensures failed { OnErr result (W.failures out.old < W.failures out.new) }
{
    write_and_flush(out, text.as_bytes())
}

// Writes the frames that the words ask for, or the usage if there is only the program's name.
// Returns `false`, and writes nothing, if the words aren't as expected.
fn write_asked<W: Sink>(alloc: Global, words: &[String], out: &mut W) -> Result<bool, Fault>
    ensures written { IfOk result (λ done. done ≡ true → 2 ≤ length words.entry.now
        → (bytes : List ℕ)
        × AreAskedFor (map string_bytes words.entry.now) bytes
        × Appends (W.given out.old) (W.given out.new) bytes) }
    ensures broken_off { OnErr result (2 ≤ length words.entry.now
        → BreakOffAsked (map string_bytes words.entry.now) (W.given out.old) (W.given out.new)) }
    ensures usage { IfOk result (λ done. length words.entry.now < 2
        → (done ≡ true) × Appends (W.given out.old) (W.given out.new) usage_lines) }
    ensures refused { 2 ≤ length words.entry.now → AskForNothing (map string_bytes words.entry.now)
        → result ≡ Ok false }
    ensures nothing { result ≡ Ok false → AskForNothing (map string_bytes words.entry.now) }
    ensures nothing_written { result ≡ Ok false → W.given out.new ≡ W.given out.old }
    ensures ok { OnOk result (W.failures out.new ≡ W.failures out.old) }
    ensures failed { W.failures out.old < W.failures out.new → result ≡ Err Fault.Write }
    ensures write { IfErr result (λ fault. fault ≡ Fault.Write
        → W.failures out.old < W.failures out.new) }
    ensures never_limit { IfErr result (λ fault. fault ≢ Fault.Limit) }
{
    if words.len() < 2 {
        show(out, USAGE)?;
        return Ok(true);
    }
    let Some(plan) = read_words(words) else {
        return Ok(false);
    };
    write_batches(alloc, plan, out)?;
    Ok(true)
}

// Prints help or the version if the arguments ask for it, and otherwise reports that they aren't as
// expected. Returns the exit code.
fn answer<O: Sink, E: Sink>(alloc: Global, words: &[String], out: &mut O, error: &mut E) -> u8
    ensures shown { result ≡ 0 → AsksForText (map string_bytes words.entry.now) }
    ensures text { result ≡ 0 → (text : List ℕ) × Appends (O.given out.old) (O.given out.new) text }
    ensures quiet { result ≡ 0 → E.given error.new ≡ E.given error.old }
    ensures answered { AsksForTextAlone (map string_bytes words.entry.now) → (result ≡ 0)
        ⊎ (result ≡ 1) }
    ensures refused { ¬ AsksForText (map string_bytes words.entry.now) → (result ≡ 2)
        ⊎ ((result ≡ 1)
        × IsReported (line_of Fault.Memory) (E.given error.old) (E.given error.new)
        (E.failures error.old) (E.failures error.new)) }
    ensures code { (result ≡ 0) ⊎ ((result ≡ 1) ⊎ (result ≡ 2)) }
    ensures nothing { result ≡ 2 → O.given out.new ≡ O.given out.old }
    ensures expected { result ≡ 2
        → IsReported expected_line (E.given error.old) (E.given error.new) (E.failures error.old)
        (E.failures error.new) }
    ensures failed { O.failures out.old < O.failures out.new → (result ≡ 1)
        × IsReported (line_of Fault.Write) (E.given error.old) (E.given error.new)
        (E.failures error.old) (E.failures error.new) }
    ensures memory { result ≡ 1 → (O.failures out.old < O.failures out.new)
        ⊎ IsReported (line_of Fault.Memory) (E.given error.old) (E.given error.new)
        (E.failures error.old) (E.failures error.new) }
{
    match asked_text(alloc, words) {
        Ok(Some(text)) => match show(out, &text) {
            Ok(()) => 0,
            Err(_) => fail(error, Fault::Write),
        },
        Ok(None) => refuse(error),
        Err(fault) => fail(error, fault),
    }
}

/// Runs the program on its words, of which the first is its name, and returns the exit code. It
/// writes frames, or the usage if there are no other words. Words that ask for no frames may ask
/// for help or the version.
pub fn run<O: Sink, E: Sink>(alloc: Global, words: &[String], out: &mut O, error: &mut E) -> u8
    ensures written { result ≡ 0 → 2 ≤ length words.entry.now → ((bytes : List ℕ)
        × AreAskedFor (map string_bytes words.entry.now) bytes
        × Appends (O.given out.old) (O.given out.new) bytes)
        ⊎ (AskForNothing (map string_bytes words.entry.now)
        × AsksForText (map string_bytes words.entry.now)) }
    ensures text { result ≡ 0 → (text : List ℕ) × Appends (O.given out.old) (O.given out.new) text }
    ensures usage { result ≡ 0 → length words.entry.now < 2
        → Appends (O.given out.old) (O.given out.new) usage_lines }
    ensures answered { AsksForTextAlone (map string_bytes words.entry.now) → (result ≡ 0)
        ⊎ (result ≡ 1) }
    ensures broken_off { result ≡ 1 → 2 ≤ length words.entry.now
        → BreakOffAsked (map string_bytes words.entry.now) (O.given out.old) (O.given out.new)
        ⊎ AskForNothing (map string_bytes words.entry.now) }
    ensures mistaken { result ≡ 2
        → (2 ≤ length words.entry.now) × AskForNothing (map string_bytes words.entry.now) }
    ensures refused { 2 ≤ length words.entry.now → AskForNothing (map string_bytes words.entry.now)
        → ¬ AsksForText (map string_bytes words.entry.now) → (result ≡ 2) ⊎ ((result ≡ 1)
        × IsReported (line_of Fault.Memory) (E.given error.old) (E.given error.new)
        (E.failures error.old) (E.failures error.new)) }
    ensures code { (result ≡ 0) ⊎ ((result ≡ 1) ⊎ (result ≡ 2)) }
    ensures quiet { result ≡ 0 → E.given error.new ≡ E.given error.old }
    ensures nothing { result ≡ 2 → O.given out.new ≡ O.given out.old }
    ensures expected { result ≡ 2
        → IsReported expected_line (E.given error.old) (E.given error.new) (E.failures error.old)
        (E.failures error.new) }
    ensures failed { O.failures out.old < O.failures out.new → (result ≡ 1)
        × IsReported (line_of Fault.Write) (E.given error.old) (E.given error.new)
        (E.failures error.old) (E.failures error.new) }
    ensures memory { result ≡ 1 → (O.failures out.old < O.failures out.new)
        ⊎ IsReported (line_of Fault.Memory) (E.given error.old) (E.given error.new)
        (E.failures error.old) (E.failures error.new) }
    ensures reported { result ≡ 1 → (fault : FaultValue)
        × IsReported (line_of fault) (E.given error.old) (E.given error.new) (E.failures error.old)
        (E.failures error.new) }
{
    match write_asked(alloc, words, out) {
        Ok(true) => 0,
        Ok(false) => answer(alloc, words, out, error),
        Err(fault) => fail(error, fault),
    }
}
