//! Split points as lines of a file.

ghost use Rattle.std.specs.Prelude.{◌≡◌, ◌≢◌, ◌+◌, ◌≤◌, ◌<◌, ◌↔◌, ℕ};
ghost use Rattle.std.specs.Prelude.{IfOk, IfSome, IsErrOf, length, take, vec_len};
ghost use Rattle.std.specs.Io.BufRead.{take_through};
ghost use Rattle.std.specs.Io.KnownBytes.{Consumes, IsAtEnd};
ghost use Rattle.shards.specs.SplitPoints.{IsFirstFall};
ghost use Rattle.shards.specs.declared.split_points.TheConstants.{MAX_SPLIT_POINTS};
ghost use Rattle.json_lines.specs.Ranges.{IsKeyLine};
ghost use Rattle.replay_shards.specs.Points.{ArePointLines};
ghost use Rattle.replay_shards.specs.declared.points.PointsError.TheVariants.{Memory};

use json_lines::{Cause, LineRefusal, read_key_line};
use keys::Key;
use replay_output::Status;
use shards::{SplitPoints, SplitPointsError};
use std::alloc::{AllocError, AllocFailed, Global};
use thiserror::Error;
use wire::{Sink, Source, write_all};

/// Why a file has no split points for the resolvers. Lines are counted from 1.
#[derive(Debug, Drop, Error)]
pub enum PointsError {
    #[error("cannot open")]
    CannotOpen,
    /// A line isn't a key in its printed form.
    #[error("line {0}: {1}")]
    Line(u64, LineRefusal),
    /// The split point of a line isn't after that of the line before, or is the empty key.
    #[error("line {0}: the split point isn't after the one before")]
    NotRising(u64),
    /// There is another number of split points than there are shards but one.
    #[error("{0} split points are wanted, the file has {1}")]
    Count(u64, u64),
    #[error("a read failed")]
    Read,
    #[error("memory was refused")]
    Memory,
}

impl From<AllocError> for PointsError {
    ghost from_gives = { λ _ e. e ≡ Memory };

    fn from(_refused: AllocError) -> PointsError {
        PointsError::Memory
    }
}

impl<T: Drop> From<AllocFailed<T>> for PointsError {
    ghost from_gives = { λ _ e. e ≡ Memory };

    fn from(_refused: AllocFailed<T>) -> PointsError {
        PointsError::Memory
    }
}

// The number of bytes per read.
const CHUNK: usize = 4_096;

/// Reads the split points of this many shards to the end of the input, one key in its printed form
/// per line. The last line needs no line feed.
pub fn read_points<S: Source>(
    alloc: Global,
    reader: &mut S,
    shard_count: usize,
) -> Result<SplitPoints, PointsError>
    requires some { 1 ≤ shard_count }
    requires few { shard_count ≤ MAX_SPLIT_POINTS + 1 }
    ensures points { IfOk result (λ points. IfSome (S.remaining reader.old)
        (λ bytes. ArePointLines bytes points)) }
    ensures count { IfOk result (λ points. length points + 1 ≡ shard_count) }
{
    let bytes = read_to_end(alloc, reader)?;
    let points = keys_of_lines(alloc, &bytes)?;
    checked(points, shard_count)
}

fn read_to_end<S: Source>(alloc: Global, reader: &mut S) -> Result<Vec<u8>, PointsError>
    ensures bytes { IfOk result
        (λ bytes. Consumes (S.remaining reader.old) (S.remaining reader.new) bytes.items) }
    ensures end { IfOk result (λ _. IsAtEnd (S.remaining reader.new)) }
{
    let mut bytes = Vec::new(alloc);
    let mut chunk = [0; CHUNK];
    for _ in 0..u64::MAX {
        let Ok(count) = reader.read(&mut chunk) else {
            return Err(PointsError::Read);
        };
        if count == 0 {
            return Ok(bytes);
        }
        bytes.extend_from_slice(&chunk[..count])?;
    }
    // No input is so long.
    Err(PointsError::Memory)
}

fn keys_of_lines(alloc: Global, bytes: &[u8]) -> Result<Vec<Key>, PointsError>
    ensures lines { IfOk result (λ keys. ArePointLines bytes.now keys.items) }
{
    let mut keys = Vec::new(alloc);
    let mut rest = bytes;
    while !rest.is_empty() {
        let (line, after) = rest.split_at(line_length(rest));
        keys.push(key_of_line(alloc, keys.len() as u64, line)?)?;
        rest = after;
    }
    Ok(keys)
}

// Returns the length of the first line, with its line feed if there is one.
fn line_length(bytes: &[u8]) -> usize
    ensures line { take result bytes.now ≡ take_through 10 bytes.now }
    ensures within { result ≤ length bytes.now }
    ensures some { 0 < length bytes.now → 0 < result }
{
    for (index, byte) in bytes.iter().enumerate() {
        if *byte == b'\n' {
            return index + 1;
        }
    }
    bytes.len()
}

// Reads the key of a line, before which there are that many lines.
fn key_of_line(alloc: Global, before: u64, line: &[u8]) -> Result<Key, PointsError>
    ensures key { IfOk result (IsKeyLine line.now) }
{
    match read_key_line(alloc, line) {
        Ok(key) => Ok(key),
        Err(refusal) if refusal.cause == Cause::Memory => Err(PointsError::Memory),
        Err(refusal) => Err(PointsError::Line(before.saturating_add(1), refusal)),
    }
}

// Takes the keys as split points if they rise, and there are as many as are wanted.
fn checked(points: Vec<Key>, shard_count: usize) -> Result<SplitPoints, PointsError>
    requires some { 1 ≤ shard_count }
    requires few { shard_count ≤ MAX_SPLIT_POINTS + 1 }
    ensures points { IfOk result (λ split. split ≡ points.items) }
    ensures count { IfOk result (λ split. length split + 1 ≡ shard_count) }
    ensures other { (wanted found : ℕ) → IsErrOf result (PointsError.Count wanted found)
        ↔ (found ≡ vec_len points) × (wanted + 1 ≡ shard_count) × (wanted ≢ found) }
    ensures not_rising { (line : ℕ) → IsErrOf result (PointsError.NotRising (line + 1))
        ↔ (vec_len points + 1 ≡ shard_count) × IsFirstFall points.items line }
{
    let wanted = shard_count - 1;
    if points.len() != wanted {
        return Err(PointsError::Count(wanted as u64, points.len() as u64));
    }
    match SplitPoints::checked(points) {
        Ok(points) => Ok(points),
        Err(SplitPointsError::TooMany) => unreachable!(),
        Err(SplitPointsError::NotRising(index)) => Err(PointsError::NotRising(index as u64 + 1)),
    }
}

/// Prints the line of the cause, and returns how the program ends. A failed write changes nothing.
pub fn fail_to_read_points<W: Sink>(alloc: Global, error: &mut W, cause: &PointsError) -> Status
    ensures failed { result ≡ Status.Failed }
{
    let line = match format!(in alloc; "replay: split points: {cause}\n") {
        Ok(line) => write_all(error, line.as_bytes()),
        Err(_) => write_all(error, b"replay: split points: memory was refused\n"),
    };
    let _ = line;
    Status::Failed
}
