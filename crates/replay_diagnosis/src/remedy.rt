//! The line about a file.

ghost use Rattle.std.specs.Prelude.{◌≡◌, ◌⊎◌, ◌<◌, ◌++◌, ℕ, take, IfErr, IfOk, IfSome, OnOk, codes};
ghost use Rattle.std.specs.Prelude.{decimal};
ghost use Rattle.std.specs.Io.KnownBytes.{Appends};
ghost use Rattle.replay_diagnosis.specs.Remedy.{advice, finding_text, position_text, remedy_line};
ghost use Rattle.replay_diagnosis.specs.Remedy.{unreadable_text};

use crate::name::put_name;
use crate::position::Position;
use crate::run_findings::Finding;
use std::alloc::Global;
use std::io;
use std::io::Write;
use wire::{Sink, WireError, write_all};

/// Writes the line that says what was found in the file of this name, and what to do. It begins
/// with two spaces. Returns `Memory` or `Write`: after the first nothing was written, and after the
/// second a prefix of the line.
pub fn write_remedy<W: Sink>(
    alloc: Global,
    sink: &mut W,
    name: &str,
    finding: &Finding,
) -> Result<(), WireError>
    ensures text { OnOk result (Appends (W.given sink.old) (W.given sink.new)
        (remedy_line name.now finding.now)) }
    ensures ok { OnOk result (W.failures sink.new ≡ W.failures sink.old) }
    ensures either { IfErr result (λ e. (e ≡ WireError.Memory) ⊎ (e ≡ WireError.Write)) }
    ensures memory { IfErr result (λ e. e ≡ WireError.Memory → sink.new ≡ sink.old) }
    ensures write { IfErr result (λ e. e ≡ WireError.Write
        → (W.failures sink.old < W.failures sink.new)
        × IfSome (W.given sink.new) (λ _. (n : ℕ) × Appends (W.given sink.old) (W.given sink.new)
        (take n (remedy_line name.now finding.now)))) }
{
    let line = line_of(alloc, name.as_bytes(), finding)?;
    match write_all(sink, &line) {
        Ok(()) => Ok(()),
        Err(_) => Err(WireError::Write),
    }
}

// Returns the line about the file of this name.
fn line_of(alloc: Global, name: &[u8], finding: &Finding) -> Result<Vec<u8>, WireError>
    ensures text { IfOk result (λ line. line.items ≡ remedy_line name.now finding.now) }
    ensures memory { IfErr result (λ e. e ≡ WireError.Memory) }
{
    let mut line = Vec::new(alloc);
    match put_line(&mut line, name, finding) {
        Ok(()) => Ok(line),
        Err(_) => Err(WireError::Memory),
    }
}

fn put_line(out: &mut Vec<u8>, name: &[u8], finding: &Finding) -> io::Result<()>
    ensures text { OnOk result (out.new.items ≡ out.old.items ++ remedy_line name.now finding.now) }
{
    out.write_all(b"  ")?;
    put_name(out, name)?;
    put_finding(out, finding)?;
    out.write_all(b"\n")
}

// Appends what was found in a file, and what to do.
fn put_finding(out: &mut Vec<u8>, finding: &Finding) -> io::Result<()>
    ensures text { OnOk result (out.new.items ≡ out.old.items ++ finding_text finding.now) }
{
    match finding {
        Finding::CannotOpen => {
            out.write_all(b" can't be opened: check the name and the permissions")
        }
        Finding::StandardInput => out.write_all(
            b" is standard input, which can't be read again: record it to a file, and replay that",
        ),
        Finding::Memory => { out.write_all(b" can't be examined for want of memory: free memory") }
        Finding::Unreadable(position) => put_unreadable(out, position),
        Finding::Json => { out.write_all(b" is JSON: run `batches encode`, and replay its output") }
        Finding::Reply(position) => put_reply(out, position),
        Finding::Truncated { position, missing } => put_truncated(out, position, *missing),
        Finding::NotAFrame(position, _) => put_no_frame(out, position),
    }
}

fn put_unreadable(out: &mut Vec<u8>, position: &Position) -> io::Result<()>
    ensures text { OnOk result (out.new.items ≡ out.old.items ++ unreadable_text position.now) }
{
    if position.offset == 0 {
        out.write_all(b" can't be read: it is a directory, or its device fails")
    } else {
        put_unreadable_at(out, position)
    }
}

fn put_unreadable_at(out: &mut Vec<u8>, position: &Position) -> io::Result<()>
    ensures text { OnOk result (out.new.items ≡ out.old.items
        ++ (codes " can't be read at " ++ position_text position.now
        ++ codes ": check its device")) }
{
    out.write_all(b" can't be read at ")?;
    put_position(out, position)?;
    out.write_all(b": check its device")
}

fn put_reply(out: &mut Vec<u8>, position: &Position) -> io::Result<()>
    ensures text { OnOk result (out.new.items ≡ out.old.items
        ++ (codes " contains replies, not batches, from " ++ position_text position.now
        ++ codes " on: give them to `--check`")) }
{
    out.write_all(b" contains replies, not batches, from ")?;
    put_position(out, position)?;
    out.write_all(b" on: give them to `--check`")
}

fn put_truncated(out: &mut Vec<u8>, position: &Position, missing: u64) -> io::Result<()>
    ensures text { OnOk result (out.new.items ≡ out.old.items
        ++ (codes " ends inside " ++ position_text position.now ++ codes ", " ++ decimal missing
        ++ codes " bytes too early" ++ advice position.now)) }
{
    out.write_all(b" ends inside ")?;
    put_position(out, position)?;
    write!(out, ", {missing} bytes too early")?;
    put_advice(out, position)
}

fn put_no_frame(out: &mut Vec<u8>, position: &Position) -> io::Result<()>
    ensures text { OnOk result (out.new.items ≡ out.old.items
        ++ (codes " has no frame of a batch as " ++ position_text position.now
        ++ advice position.now)) }
{
    out.write_all(b" has no frame of a batch as ")?;
    put_position(out, position)?;
    put_advice(out, position)
}

fn put_position(out: &mut Vec<u8>, position: &Position) -> io::Result<()>
    ensures text { OnOk result (out.new.items ≡ out.old.items ++ position_text position.now) }
{
    let Position { frame, offset } = *position;
    write!(out, "frame {frame} at byte {offset}")
}

// Appends what to do with a file that has no frame of a batch at the position.
fn put_advice(out: &mut Vec<u8>, position: &Position) -> io::Result<()>
    ensures text { OnOk result (out.new.items ≡ out.old.items ++ advice position.now) }
{
    let offset = position.offset;
    if offset == 0 {
        return out.write_all(b": name a file of batches");
    }
    write!(
        out,
        ": record it again, or keep the frames before it with `head -c {offset}`"
    )
}
