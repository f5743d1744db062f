//! The ranges that conflict most, as lines of words.

ghost use Rattle.std.specs.Prelude.{◌≡◌, ◌++◌, IfOk, OnOk, decimal, flat_map};
ghost use Rattle.replay_hot_ranges.specs.Text.{hot_line, lines, range_form};

use crate::hot_range::{HotRange, Top};
use itoa::Buffer;
use json_lines::put_quoted_key;
use std::alloc::{AllocError, Global};

/// Returns the read ranges and then the written ranges, each under a heading, one line per range.
pub fn hot_lines(alloc: Global, top: &Top<'_>) -> Result<Vec<u8>, AllocError>
    ensures text { IfOk result (λ text. text.items ≡ lines top.now) }
{
    let mut out = Vec::new(alloc);
    out.extend_from_slice(b"read ranges in conflict, most first\n")?;
    put_lines(&mut out, &top.reads)?;
    out.extend_from_slice(b"written ranges in conflict, most first\n")?;
    put_lines(&mut out, &top.writes)?;
    Ok(out)
}

fn put_lines(out: &mut Vec<u8>, ranges: &[HotRange<'_>]) -> Result<(), AllocError>
    ensures text { OnOk result (out.new.items ≡ out.old.items ++ flat_map hot_line ranges.now) }
{
    for range in ranges {
        put_line(out, range)?;
    }
    Ok(())
}

fn put_line(out: &mut Vec<u8>, hot: &HotRange<'_>) -> Result<(), AllocError>
    ensures text { OnOk result (out.new.items ≡ out.old.items ++ hot_line hot.now) }
{
    out.extend_from_slice(b"  ")?;
    put_number(out, hot.conflicts)?;
    out.push(b' ')?;
    put_range(out, hot.begin, hot.end)?;
    Ok(out.push(b'\n')?)
}

fn put_number(out: &mut Vec<u8>, number: usize) -> Result<(), AllocError>
    ensures text { OnOk result (out.new.items ≡ out.old.items ++ decimal number) }
{
    let mut buffer = Buffer::new();
    out.extend_from_slice(buffer.format(number).as_bytes())
}

// Appends a range: its begin and its end.
fn put_range(out: &mut Vec<u8>, begin: &[u8], end: &[u8]) -> Result<(), AllocError>
    ensures text { OnOk result (out.new.items ≡ out.old.items ++ range_form begin.now end.now) }
{
    out.push(b'[')?;
    put_quoted_key(out, begin)?;
    out.push(b',')?;
    put_quoted_key(out, end)?;
    Ok(out.push(b')')?)
}
