//! The reading of a frame of a batch.

ghost use Rattle.std.specs.Prelude.{◌≡◌, ◌≢◌, ◌+◌, ◌≤◌, ◌≤ℤ◌, ◌<ℤ◌, negsuc, length, take, vec_len};
ghost use Rattle.std.specs.Prelude.{IfOk, IfErr, OnOk, Some, None};
ghost use Rattle.byteorder.specs.Endian.{big_number};
ghost use Rattle.wire.specs.Fields.{batch_fields};
ghost use Rattle.wire.specs.Lying.{IsRestOf, AreApart, index_of, batch_of_tables};
ghost use Rattle.wire.specs.Spelling.{BatchHolds, SpellsBatch};
ghost use Rattle.wire.specs.Reading.{Gives, body_at, batch_kind_at, header_at, fields_at, batch_at};
ghost use Rattle.wire.specs.Reading.{read_batch, batch_fault, version_at_front};
ghost use Rattle.wire.specs.declared.field.TheConstants.{MAX_BODY_LENGTH};

use crate::error::WireError;
use crate::field::{body_of, count_of, i64_at, u8_at};
use crate::seal::seal;
use crate::tables::FrameTables;
use crate::txn::txns_of;
use crate::version::WireVersion;
use keyspace::{Batch, MAX_TXNS, UnorderedBatch};
use std::alloc::{AllocError, Global};

// Reads the kind of a batch and returns its wire version.
#[tactic(auto, unfolding(crate::specs::Reading::batch_kind_at))]
fn version_of(bytes: &[u8]) -> Result<(WireVersion, &[u8]), WireError>
    ensures reads { Gives (λ x. (x.0, x.1.now)) result (batch_kind_at bytes.now) }
{
    let (kind, rest) = u8_at(bytes)?;
    match kind {
        1 => Ok((WireVersion::One, rest)),
        3 => Ok((WireVersion::Two, rest)),
        _ => Err(WireError::Kind),
    }
}

// Reads the previous version, the version and the last received version.
#[tactic(auto, unfolding(crate::specs::Reading::header_at, crate::specs::Reading::version_at))]
fn header_of(bytes: &[u8]) -> Result<((i64, i64, i64), &[u8]), WireError>
    ensures reads { Gives (λ x. (x.0, x.1.now)) result (header_at bytes.now) }
    ensures previous_from { IfOk result (λ x. negsuc 0 ≤ℤ x.0.0) }
    ensures rises { IfOk result (λ x. x.0.0 <ℤ x.0.1) }
    ensures received_from { IfOk result (λ x. negsuc 0 ≤ℤ x.0.2) }
    ensures received_before { IfOk result (λ x. x.0.2 <ℤ x.0.1) }
{
    let (previous, rest) = i64_at(bytes)?;
    if previous < -1 {
        return Err(WireError::Version);
    }
    let (version, rest) = i64_at(rest)?;
    if version < 0 || version <= previous {
        return Err(WireError::Version);
    }
    let (received, rest) = i64_at(rest)?;
    if received < -1 || version <= received {
        return Err(WireError::Version);
    }
    Ok(((previous, version, received), rest))
}

// Reads what follows the kind of a batch.
#[tactic(auto, unfolding(crate::specs::Reading::fields_at))]
fn fields_of<'a>(
    alloc: Global,
    version: WireVersion,
    frame: &[u8],
    bytes: &'a [u8],
) -> Result<(FrameTables, &'a [u8]), WireError>
    requires short { length frame.now ≤ 4 + MAX_BODY_LENGTH }
    requires rest { IsRestOf frame.now bytes.now }
    ensures reads { Gives (λ x. (batch_of_tables frame.now x.0, x.1.now)) result
        (fields_at version bytes.now) }
    ensures apart { IfOk result (λ x. AreApart 0 x.0.spans.items (index_of frame.now x.1.now)) }
{
    let ((previous, batch_version, received), rest) = header_of(bytes)?;
    let (count, rest) = count_of(MAX_TXNS as u16, rest)?;
    let ((spans, rows), rest) = txns_of(alloc, version, count, frame, rest)?;
    let tables = FrameTables {
        previous,
        version: batch_version,
        received,
        spans,
        rows,
    };
    Ok((tables, rest))
}

// Reads a batch and the wire version that it is spelled in.
#[tactic(auto, unfolding(crate::specs::Reading::batch_at))]
fn body_of_batch<'a>(
    alloc: Global,
    frame: &[u8],
    bytes: &'a [u8],
) -> Result<((WireVersion, FrameTables), &'a [u8]), WireError>
    requires short { length frame.now ≤ 4 + MAX_BODY_LENGTH }
    requires rest { IsRestOf frame.now bytes.now }
    ensures reads { Gives (λ x. ((x.0.0, batch_of_tables frame.now x.0.1), x.1.now)) result
        (batch_at bytes.now) }
    ensures apart { IfOk result (λ x. AreApart 0 x.0.1.spans.items (index_of frame.now x.1.now)) }
{
    let (version, rest) = version_of(bytes)?;
    let (tables, rest) = fields_of(alloc, version, frame, rest)?;
    Ok(((version, tables), rest))
}

// Returns the frame at the front, and its body.
fn frame_of(bytes: &[u8]) -> Result<(&[u8], &[u8]), WireError>
    ensures reads { Gives (λ x. x.1.now) result (body_at bytes.now) }
    ensures frame { IfOk result (λ x. x.0.now ≡ take (4 + big_number 4 bytes.now) bytes.now) }
    ensures length { IfOk result (λ x. length x.0.now ≡ 4 + big_number 4 bytes.now) }
    ensures short { IfOk result (λ x. length x.0.now ≤ 4 + MAX_BODY_LENGTH) }
    ensures body { IfOk result (λ x. IsRestOf x.0.now x.1.now) }
{
    let body = body_of(bytes)?;
    Ok((&bytes[..4 + body.len()], body))
}

/// Reads the frame at the front into tables, and returns its wire version, these and the frame. No
/// key is copied.
#[tactic(auto, unfolding(crate::specs::Reading::read_batch))]
pub fn tables_of(
    alloc: Global,
    bytes: &[u8],
) -> Result<(WireVersion, FrameTables, &[u8]), WireError>
    ensures reads { Gives (λ x. (x.0, batch_of_tables x.2.now x.1)) result (read_batch bytes.now) }
    ensures frame { IfOk result (λ x. x.2.now ≡ take (4 + big_number 4 bytes.now) bytes.now) }
    ensures length { IfOk result (λ x. length x.2.now ≡ 4 + big_number 4 bytes.now) }
    ensures apart { IfOk result (λ x. AreApart 0 x.1.spans.items (length x.2.now)) }
    ensures holds { IfOk result (λ x. BatchHolds (batch_of_tables x.2.now x.1)) }
{
    let (frame, body) = frame_of(bytes)?;
    let ((version, tables), rest) = body_of_batch(alloc, frame, body)?;
    if !rest.is_empty() {
        return Err(WireError::Trailing);
    }
    Ok((version, tables, frame))
}

/// Makes the batch of the tables, without ordering its ranges. It keeps the frame, in which each
/// single key is given its end.
pub fn unordered_of(frame: Vec<u8>, tables: FrameTables) -> Result<UnorderedBatch, AllocError>
    requires apart { AreApart 0 tables.spans.items (vec_len frame) }
    requires holds { BatchHolds (batch_of_tables frame.items tables) }
    ensures fields { IfOk result (λ batch. batch_fields batch
        ≡ batch_of_tables frame.items tables) }
{
    let mut buffer = frame;
    seal(&mut buffer, &tables.spans)?;
    let sealed = keyspace::Tables {
        buffer,
        spans: tables.spans,
        rows: tables.rows,
    };
    Ok(UnorderedBatch::new(tables.previous, tables.version, tables.received, sealed))
}

/// Makes the batch of the tables, as [`unordered_of`] does, and orders its ranges.
pub fn batch_of(alloc: Global, frame: Vec<u8>, tables: FrameTables) -> Result<Batch, AllocError>
    requires apart { AreApart 0 tables.spans.items (vec_len frame) }
    requires holds { BatchHolds (batch_of_tables frame.items tables) }
    ensures fields { IfOk result (λ batch. batch_fields batch
        ≡ batch_of_tables frame.items tables) }
{
    let batch = unordered_of(frame, tables)?;
    batch.order(alloc)
}

/// Decodes the frame at the front, of either wire version, and returns its batch and its length in
/// bytes. The batch has a copy of the frame. What follows the frame isn't looked at. A refusal
/// other than `Memory` is the frame's first fault.
pub fn decode_batch(alloc: Global, bytes: &[u8]) -> Result<(Batch, usize), WireError>
    ensures within { IfOk result (λ found. found.1 ≤ length bytes.now) }
    ensures spelled { IfOk result (λ found.
        SpellsBatch (version_at_front bytes.now) (take found.1 bytes.now) found.0) }
    ensures ok { OnOk result (batch_fault bytes.now ≡ None) }
    ensures fault { IfErr result (λ e. e ≢ WireError.Memory → batch_fault bytes.now ≡ Some e) }
    ensures never_read { IfErr result (λ e. e ≢ WireError.Read) }
    ensures never_write { IfErr result (λ e. e ≢ WireError.Write) }
{
    let (_, tables, frame) = tables_of(alloc, bytes)?;
    // One byte more than the frame has, for the end of a single key that stands last.
    let mut copy = Vec::with_capacity(alloc, frame.len() + 1)?;
    copy.extend_from_slice(frame)?;
    let batch = batch_of(alloc, copy, tables)?;
    Ok((batch, frame.len()))
}
