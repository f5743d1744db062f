//! Split points as lines.

ghost use Rattle.std.specs.Prelude.{◌≡◌, IfNone, IfOk, IfSome};
ghost use Rattle.std.specs.Io.KnownBytes.{IsAtEnd};
ghost use Rattle.json_lines.specs.Ranges.{IsKeyLine};
ghost use Rattle.batches_tasks.specs.Points.{ArePointLines, TakesPoint, point_lines};

use crate::failure::Failure;
use json_lines::{put_key_form, read_key_line};
use keys::Key;
use shards::{SplitPoints, SplitPointsError};
use std::alloc::{AllocError, Global};
use std::io::BufRead;

/// Returns the lines of split points: each is a key in its printed form.
pub fn lines_of_points(alloc: Global, points: &SplitPoints) -> Result<Vec<u8>, AllocError>
    ensures lines { IfOk result (λ lines. lines.items ≡ point_lines points.now) }
{
    let mut lines = Vec::new(alloc);
    let keys = points.points();
    for point in keys {
        put_key_form(&mut lines, point.as_bytes())?;
        lines.push(b'\n')?;
    }
    Ok(lines)
}

/// Reads split points to the end of the input, one per line. The last line needs no line feed.
pub fn read_points<R: BufRead>(alloc: Global, reader: &mut R) -> Result<SplitPoints, Failure>
    ensures points { IfOk result (λ points. IfSome (R.remaining reader.old)
        (λ bytes. ArePointLines bytes points)) }
{
    let mut points = Vec::new(alloc);
    let mut line = Vec::new(alloc);
    for number in 1..u64::MAX {
        let Some(point) = next_point(alloc, number, reader, &mut line)? else {
            return checked(points);
        };
        points.push(point)?;
    }
    // The number of one line more wouldn't fit. No input is so long.
    Err(Failure::Memory)
}

// Reads the next line, which has this number, and returns its key, or none at the end of the input.
fn next_point<R: BufRead>(
    alloc: Global,
    number: u64,
    reader: &mut R,
    line: &mut Vec<u8>,
) -> Result<Option<Key>, Failure>
    ensures point { IfOk result (λ found. IfSome found
        (TakesPoint (R.remaining reader.old) (R.remaining reader.new))) }
    ensures end { IfOk result (λ found. IfNone found (IsAtEnd (R.remaining reader.old))) }
{
    line.clear();
    if reader.read_until(b'\n', line)? == 0 {
        return Ok(None);
    }
    Ok(Some(point_of(alloc, number, line)?))
}

// Returns the key that a line, which has this number, spells.
fn point_of(alloc: Global, number: u64, line: &[u8]) -> Result<Key, Failure>
    ensures point { IfOk result (IsKeyLine line.now) }
{
    match read_key_line(alloc, line) {
        Ok(key) => Ok(key),
        Err(refusal) => Err(Failure::of_point(number, refusal)),
    }
}

fn checked(points: Vec<Key>) -> Result<SplitPoints, Failure>
    ensures points { IfOk result (λ split. split ≡ points.items) }
{
    match SplitPoints::checked(points) {
        Ok(points) => Ok(points),
        Err(SplitPointsError::TooMany) => Err(Failure::TooManyPoints),
        Err(SplitPointsError::NotRising(index)) => {
            Err(Failure::NotRising((index as u64).saturating_add(1)))
        }
    }
}
