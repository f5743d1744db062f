//! The line about a run.

ghost use Rattle.std.specs.Prelude.{◌≡◌, ◌⊎◌, ◌<◌, ◌++◌, ℕ, take, IfErr, IfOk, IfSome, OnOk};
ghost use Rattle.std.specs.Prelude.{codes, decimal};
ghost use Rattle.std.specs.Fmt.{signed_decimal};
ghost use Rattle.std.specs.Io.KnownBytes.{Appends};
ghost use Rattle.replay_diagnosis.specs.Remedy.{run_finding_text, run_remedy_line};

use crate::run_findings::RunFinding;
use std::alloc::Global;
use std::io;
use std::io::Write;
use wire::{Sink, WireError, write_all};

/// Writes the line that says what was found of a run, and what to do. It begins with two spaces.
/// Returns `Memory` or `Write`: after the first nothing was written, and after the second a prefix
/// of the line.
pub fn write_run_remedy<W: Sink>(
    alloc: Global,
    sink: &mut W,
    finding: &RunFinding,
) -> Result<(), WireError>
    ensures text { OnOk result (Appends (W.given sink.old) (W.given sink.new)
        (run_remedy_line finding.now)) }
    ensures ok { OnOk result (W.failures sink.new ≡ W.failures sink.old) }
    ensures either { IfErr result (λ e. (e ≡ WireError.Memory) ⊎ (e ≡ WireError.Write)) }
    ensures memory { IfErr result (λ e. e ≡ WireError.Memory → sink.new ≡ sink.old) }
    ensures write { IfErr result (λ e. e ≡ WireError.Write
        → (W.failures sink.old < W.failures sink.new)
        × IfSome (W.given sink.new) (λ _. (n : ℕ) × Appends (W.given sink.old) (W.given sink.new)
        (take n (run_remedy_line finding.now)))) }
{
    let line = line_of(alloc, finding)?;
    match write_all(sink, &line) {
        Ok(()) => Ok(()),
        Err(_) => Err(WireError::Write),
    }
}

fn line_of(alloc: Global, finding: &RunFinding) -> Result<Vec<u8>, WireError>
    ensures text { IfOk result (λ line. line.items ≡ run_remedy_line finding.now) }
    ensures memory { IfErr result (λ e. e ≡ WireError.Memory) }
{
    let mut line = Vec::new(alloc);
    match put_line(&mut line, finding) {
        Ok(()) => Ok(line),
        Err(_) => Err(WireError::Memory),
    }
}

fn put_line(out: &mut Vec<u8>, finding: &RunFinding) -> io::Result<()>
    ensures text { OnOk result (out.new.items ≡ out.old.items ++ run_remedy_line finding.now) }
{
    out.write_all(b"  ")?;
    put_finding(out, finding)?;
    out.write_all(b"\n")
}

// Appends what was found of a run, and what to do.
fn put_finding(out: &mut Vec<u8>, finding: &RunFinding) -> io::Result<()>
    ensures text { OnOk result (out.new.items ≡ out.old.items ++ run_finding_text finding.now) }
{
    match finding {
        RunFinding::AllHeld(version) => write!(
            out,
            "no batch follows version -1, so all are held: begin the chain with \
             `batches opening --version {version}`"
        ),
        RunFinding::GateFull => out.write_all(
            b"too many batches wait for one that is missing: make all files one chain, with \
              rising versions in each file",
        ),
        RunFinding::ArenaFull { version, limit } => put_arena_full(out, *version, *limit),
        RunFinding::Output => out.write_all(
            b"the output can't be written: free its disk, or read it to its end",
        ),
    }
}

fn put_arena_full(out: &mut Vec<u8>, version: i64, limit: usize) -> io::Result<()>
    ensures text { OnOk result (out.new.items ≡ out.old.items
        ++ run_finding_text (RunFinding.ArenaFull version limit)) }
{
    put_version(out, version)?;
    put_limit(out, limit)
}

fn put_version(out: &mut Vec<u8>, version: i64) -> io::Result<()>
    ensures text { OnOk result
        (out.new.items ≡ out.old.items ++ (codes "version " ++ signed_decimal version)) }
{
    write!(out, "version {version}")
}

fn put_limit(out: &mut Vec<u8>, limit: usize) -> io::Result<()>
    ensures text { OnOk result (out.new.items ≡ out.old.items
        ++ (codes " was reached with a limit of " ++ decimal limit
        ++ codes " boundaries: raise `--limit`, or use a smaller `--window`")) }
{
    write!(
        out,
        " was reached with a limit of {limit} boundaries: raise `--limit`, or use a smaller \
         `--window`"
    )
}
