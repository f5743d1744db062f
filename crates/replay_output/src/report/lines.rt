//! The printed text: one line per answer, in order.

ghost use Rattle.std.specs.Prelude.{◌≡◌, ◌<◌, ◌≤◌, ◌↔◌, ℕ, map, take, length, vec_items, OnOk};
ghost use Rattle.std.specs.Prelude.{OnErr, IfErr, IfSome};
ghost use Rattle.std.specs.Io.KnownBytes.{Appends};
ghost use Rattle.replay_output.specs.Line.{AreLinesBy, TakesToSort, answers_of, text_of, texts};
ghost use Rattle.replay_output.specs.Line.{version_of_line};
ghost use Rattle.replay_output.specs.Lines.{Print, lines_by};
ghost use Rattle.keyspace.specs.storage.InOrder.{in_order_by};

use crate::line::Line;
use keyspace::sort_by_version;
use std::alloc::{AllocError, Global};
use wire::{Failed, Sink};

/// Why the answers could not be printed.
#[derive(Debug, Drop)]
pub enum PrintError {
    /// Memory was refused while the lines of this proxy were sorted, or its replies compared.
    Memory(usize),
    /// The writer failed.
    Write,
}

/// Prints the lines of all answers, by proxy, then version, then the order received. `received`
/// holds the lines of each proxy at its number, in the order in which the answers were received;
/// they are sorted in place.
///
/// After `Memory` nothing is printed. After `Write` a prefix of the text is.
pub fn print_answers<W: Sink>(
    alloc: Global,
    out: &mut W,
    received: &mut [Vec<Line>],
) -> Result<(), PrintError>
    ensures lines { (print : Print) → AreLinesBy print (map vec_items received.old)
        → OnOk result (Appends (W.given out.old) (W.given out.new)
        (lines_by print (map answers_of (map vec_items received.old)))) }
    ensures memory { (proxy : ℕ) → result ≡ Err (PrintError.Memory proxy)
        → proxy < length received.old }
    ensures takes { (proxy : ℕ) → result ≡ Err (PrintError.Memory proxy)
        → TakesToSort (map vec_items received.old) proxy }
    ensures nothing { (proxy : ℕ) → result ≡ Err (PrintError.Memory proxy)
        → W.given out.new ≡ W.given out.old }
    ensures prefix { (print : Print) → AreLinesBy print (map vec_items received.old)
        → result ≡ Err PrintError.Write
        → IfSome (W.given out.new) (λ _. (n : ℕ)
        × Appends (W.given out.old) (W.given out.new)
        (take n (lines_by print (map answers_of (map vec_items received.old))))) }
    ensures write { (result ≡ Err PrintError.Write) ↔ (W.failures out.old < W.failures out.new) }
    ensures least_failures { W.failures out.old ≤ W.failures out.new }
{
    if let Err(proxy) = sort_lines(alloc, received) {
        return Err(PrintError::Memory(proxy));
    }
    print_sorted(out, received).map_err(|_| PrintError::Write)
}

/// Sorts the lines of each proxy by version, those of one version in the order received. An error
/// is the number of the proxy whose lines could not be sorted, since memory was refused. The order
/// is unspecified then.
pub fn sort_lines(alloc: Global, received: &mut [Vec<Line>]) -> Result<(), usize>
    ensures ok { OnOk result (map vec_items received.new
        ≡ map (in_order_by version_of_line) (map vec_items received.old)) }
    ensures inside { IfErr result (λ proxy. proxy < length received.old) }
    ensures takes { IfErr result (TakesToSort (map vec_items received.old)) }
{
    for (proxy, lines) in received.iter_mut().enumerate() {
        let Ok(()) = sort_by_version(alloc, lines) else {
            return Err(proxy);
        };
    }
    Ok(())
}

/// Prints lines that are sorted, those of each proxy in turn. After an error a prefix of the text
/// is written.
pub fn print_sorted<W: Sink>(out: &mut W, sorted: &[Vec<Line>]) -> Result<(), Failed>
    ensures entire { OnOk result (Appends (W.given out.old) (W.given out.new)
        (texts (map vec_items sorted.now))) }
    ensures prefix { OnErr result (IfSome (W.given out.new) (λ _.
        (n : ℕ) × Appends (W.given out.old) (W.given out.new)
        (take n (texts (map vec_items sorted.now))))) }
    ensures ok { OnOk result (W.failures out.new ≡ W.failures out.old) }
    ensures failed { OnErr result (W.failures out.old < W.failures out.new) }
{
    for lines in sorted {
        print_proxy(out, lines)?;
    }
    Ok(())
}

fn print_proxy<W: Sink>(out: &mut W, lines: &[Line]) -> Result<(), Failed>
    ensures entire { OnOk result (Appends (W.given out.old) (W.given out.new) (text_of lines.now)) }
    ensures prefix { OnErr result (IfSome (W.given out.new) (λ _.
        (n : ℕ) × Appends (W.given out.old) (W.given out.new) (take n (text_of lines.now)))) }
    ensures ok { OnOk result (W.failures out.new ≡ W.failures out.old) }
    ensures failed { OnErr result (W.failures out.old < W.failures out.new) }
{
    for line in lines {
        line.text.print(out)?;
    }
    Ok(())
}
