//! The fields that frames are made of. Each function reads one at the front and returns it with the
//! bytes after it.

ghost use Rattle.std.specs.Prelude.{◌≡◌, ◌⊎◌, ◌+◌, ◌*◌, ◌<◌, ◌≤◌, IfOk, length};
ghost use Rattle.byteorder.specs.Endian.{big_number};
ghost use Rattle.keyspace.specs.storage.Tables.{bytes_at};
ghost use Rattle.wire.specs.Lying.{IsRestOf, index_of};
ghost use Rattle.wire.specs.Reading.{Gives, number_at, signed_at, count_at, marks_at, kind_at};
ghost use Rattle.wire.specs.Reading.{key_at, body_at};

use crate::error::WireError;
use byteorder::{BigEndian, ByteOrder};

/// The longest body of a frame, in bytes.
pub const MAX_BODY_LENGTH: usize = 4_194_304;

const _: () = prove!(MAX_BODY_LENGTH == 4_194_304);

/// Reads a number of one byte.
pub fn u8_at(bytes: &[u8]) -> Result<(u8, &[u8]), WireError>
    ensures reads { Gives (λ x. (x.0, x.1.now)) result (number_at 1 bytes.now) }
{
    match bytes {
        [] => Err(WireError::Cut),
        [number, rest @ ..] => Ok((*number, rest)),
    }
}

/// Reads a number of two bytes.
pub fn u16_at(bytes: &[u8]) -> Result<(u16, &[u8]), WireError>
    ensures reads { Gives (λ x. (x.0, x.1.now)) result (number_at 2 bytes.now) }
{
    if bytes.len() < 2 {
        return Err(WireError::Cut);
    }
    Ok((BigEndian::read_u16(bytes), &bytes[2..]))
}

/// Reads a version or a snapshot, whatever its limits are.
pub fn i64_at(bytes: &[u8]) -> Result<(i64, &[u8]), WireError>
    ensures reads { Gives (λ x. (x.0, x.1.now)) result (signed_at bytes.now) }
{
    if bytes.len() < 8 {
        return Err(WireError::Cut);
    }
    Ok((BigEndian::read_i64(bytes), &bytes[8..]))
}

/// Reads a count of at most `limit`.
#[tactic(auto, unfolding(crate::specs::Reading::count_at))]
pub fn count_of(limit: u16, bytes: &[u8]) -> Result<(u16, &[u8]), WireError>
    ensures reads { Gives (λ x. (x.0, x.1.now)) result (count_at limit bytes.now) }
    ensures few { IfOk result (λ x. x.0 ≤ limit) }
{
    let (count, rest) = u16_at(bytes)?;
    if count > limit {
        return Err(WireError::Count);
    }
    Ok((count, rest))
}

/// Reads whether the report is asked for.
#[tactic(auto, unfolding(crate::specs::Reading::marks_at))]
pub fn marks_of(bytes: &[u8]) -> Result<(bool, &[u8]), WireError>
    ensures reads { Gives (λ x. (x.0, x.1.now)) result (marks_at bytes.now) }
{
    let (marks, rest) = u8_at(bytes)?;
    if marks > 1 {
        return Err(WireError::Marks);
    }
    Ok((marks == 1, rest))
}

/// Reads the kind, which has to be this one, and returns the bytes after it.
#[tactic(auto, unfolding(crate::specs::Reading::kind_at))]
pub fn after_kind(kind: u8, bytes: &[u8]) -> Result<&[u8], WireError>
    ensures reads { Gives (λ x. x.now) result (kind_at kind bytes.now) }
{
    let (found, rest) = u8_at(bytes)?;
    if found != kind {
        return Err(WireError::Kind);
    }
    Ok(rest)
}

/// Returns for how many of `count` values to take memory at once: no more than the bytes can hold,
/// where each value takes at least `least` of them.
pub fn room_for(count: u16, least: usize, bytes: &[u8]) -> usize
    requires some { 0 < least }
    ensures few { result ≤ count }
    ensures held { result * least ≤ length bytes.now }
    ensures most { (result ≡ count) ⊎ (length bytes.now < (result + 1) * least) }
{
    (count as usize).min(bytes.len() / least)
}

/// Reads a key of at most `limit` bytes, and returns its index in the frame, the key and the bytes
/// after it. None is copied.
#[tactic(auto, unfolding(crate::specs::Reading::key_at))]
pub fn key_of<'a>(
    frame: &[u8],
    limit: usize,
    bytes: &'a [u8],
) -> Result<(u32, &'a [u8], &'a [u8]), WireError>
    requires short { length frame.now ≤ 4 + MAX_BODY_LENGTH }
    requires rest { IsRestOf frame.now bytes.now }
    ensures reads { Gives (λ x. (x.1.now, x.2.now)) result (key_at limit bytes.now) }
    ensures key { IfOk result (λ x. bytes_at frame.now x.0 (length x.1.now) ≡ x.1.now) }
    ensures after { IfOk result (λ x. index_of frame.now bytes.now < x.0) }
    ensures end { IfOk result (λ x. x.0 + length x.1.now ≡ index_of frame.now x.2.now) }
    ensures rest { IfOk result (λ x. IsRestOf frame.now x.2.now) }
    ensures limit { IfOk result (λ x. length x.1.now ≤ limit) }
{
    let (length, rest) = u16_at(bytes)?;
    let length = length as usize;
    if length > limit {
        return Err(WireError::KeyLength);
    }
    if rest.len() < length {
        return Err(WireError::Cut);
    }
    let index = frame.len() - rest.len();
    Ok((index as u32, &rest[..length], &rest[length..]))
}

/// Returns the body of the frame at the front.
#[tactic(auto, unfolding(crate::specs::Reading::body_at))]
pub fn body_of(bytes: &[u8]) -> Result<&[u8], WireError>
    ensures reads { Gives (λ x. x.now) result (body_at bytes.now) }
    ensures length { IfOk result (λ body. length body.now ≡ big_number 4 bytes.now) }
    ensures within { IfOk result (λ body. 4 + length body.now ≤ length bytes.now) }
    ensures short { IfOk result (λ body. length body.now ≤ MAX_BODY_LENGTH) }
{
    if bytes.len() < 4 {
        return Err(WireError::Short);
    }
    let length = BigEndian::read_u32(bytes) as usize;
    if length > MAX_BODY_LENGTH {
        return Err(WireError::Long);
    }
    if bytes.len() < 4 + length {
        return Err(WireError::Short);
    }
    Ok(&bytes[4..4 + length])
}
