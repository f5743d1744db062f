//! The words of the command line.

ghost use Rattle.std.specs.Prelude.{◌≡◌, ℕ, IfErr, IfOk, IfSome, IfNone, IsSome, map, string_bytes};
ghost use Rattle.workload_program.specs.Command.{AsksForText, AsksForTextAlone};
ghost use Rattle.workload_program.specs.Fault.{IsReported, expected_line};
ghost use Rattle.workload_program.specs.declared.plan.Plan.{Plan as PlanValue};
ghost use Rattle.workload_program.specs.Arguments.{AskFor, IsNumberTo};

use crate::command::command;
use crate::fault::Fault;
use crate::plan::{MAX_BATCHES, MAX_TRANSACTIONS, Plan};
use crate::shape::Shape;
use clap::error::ErrorKind;
use std::alloc::Global;
use wire::{Sink, write_all};

/// The text that is printed if no words are given.
pub const USAGE: &str = "usage: workload SHAPE BATCHES TRANSACTIONS
Writes the frames of one chain of batches to standard output. The same words give the same bytes.
  SHAPE         skiplisttest or points
  BATCHES       1 to 65536
  TRANSACTIONS  1 to 2500, in each batch
";

// The line where the words are refused.
const EXPECTED: &str =
    "workload: SHAPE (skiplisttest or points), BATCHES (1 to 65536) and TRANSACTIONS (1 to 2500) \
     are expected\n";

/// Reads the words, of which the first is the program's name. Returns `None` if they aren't as
/// expected.
pub fn read_words(words: &[String]) -> Option<Plan>
    ensures plan { IfSome result (λ plan. AskFor plan (map string_bytes words.entry.now)) }
    ensures none { IfNone result ((plan : PlanValue)
        → ¬ AskFor plan (map string_bytes words.entry.now)) }
{
    let [_, name, batches, transactions] = words else {
        return None;
    };
    let shape = Shape::of_name(name)?;
    let batches = read_number(batches, u64::from(MAX_BATCHES))?;
    let transactions = read_number(transactions, MAX_TRANSACTIONS as u64)?;
    Some(Plan {
        shape,
        batches: batches as u32,
        transactions: transactions as usize,
    })
}

// Reads a number from 1 up to the greatest.
fn read_number(text: &str, most: u64) -> Option<u64>
    ensures number { IfSome result (IsNumberTo most text.now) }
    ensures none { IfNone result ((number : ℕ) → ¬ IsNumberTo most text.now number) }
{
    let number = text.parse::<u64>().ok()?;
    if number < 1 || number > most {
        return None;
    }
    Some(number)
}

/// Tells that the words aren't as expected, and returns the exit code. A failed write changes
/// nothing.
pub fn refuse<E: Sink>(error: &mut E) -> u8
    ensures code { result ≡ 2 }
    ensures reported { IsReported expected_line (E.given error.old) (E.given error.new)
        (E.failures error.old) (E.failures error.new) }
{
    let _ = write_all(error, EXPECTED.as_bytes());
    2
}

/// Returns the text of help or of the version, where `clap` finds that the words ask for it.
pub fn asked_text(alloc: Global, words: &[String]) -> Result<Option<String>, Fault>
    ensures asked { IfOk result (λ text. IfSome text
        (λ _. AsksForText (map string_bytes words.entry.now))) }
    ensures answered { IfOk result (λ text. AsksForTextAlone (map string_bytes words.entry.now)
        → IsSome text) }
    ensures memory { IfErr result (λ fault. fault ≡ Fault.Memory) }
{
    let Err(error) = command(alloc)?.try_get_matches_from(words) else {
        return Ok(None);
    };
    match error.kind() {
        ErrorKind::DisplayHelp | ErrorKind::DisplayVersion => Ok(Some(error.to_string(alloc)?)),
        ErrorKind::OutOfMemory => Err(Fault::Memory),
        _ => Ok(None),
    }
}
