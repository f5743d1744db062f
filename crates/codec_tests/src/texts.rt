//! The texts of the frames that several tests read, and what comes of a text, as text too. Blanks
//! stand between the fields of a text and aren't part of the bytes.

use keyspace::Batch;
use std::alloc::Global;
use test_values::{Unmade, show_batch, show_reply};
use wire::{
    WireError, WireVersion, decode_batch, decode_reply, encode_batch, encode_batch_1, encode_reply,
};

/// `-1>0`, received -1, no transactions.
pub(crate) const EMPTY_BATCH: &str =
    "0000001b 01 ffffffffffffffff 0000000000000000 ffffffffffffffff 0000";

/// `0>100`, received -1, one transaction with snapshot 0, no mark, no reads and the write [a,b).
pub(crate) const ONE_WRITE: &str =
    "0000002e 01 0000000000000000 0000000000000064 ffffffffffffffff 0001 \
     0000000000000000 00 0000 0001 0001 61 0001 62";

/// As [`EMPTY_BATCH`], in wire version 2.
pub(crate) const EMPTY_BATCH_2: &str =
    "0000001b 03 ffffffffffffffff 0000000000000000 ffffffffffffffff 0000";

/// As [`ONE_WRITE`], in wire version 2.
pub(crate) const ONE_WRITE_2: &str =
    "0000002f 03 0000000000000000 0000000000000064 ffffffffffffffff 0001 \
     0000000000000000 00 0000 0001 00 0001 61 0001 62";

// The digits of a text, without its blanks.
fn digits_of(alloc: Global, text: &str) -> Result<String, Unmade> {
    let mut digits = String::new(alloc);
    for field in text.split_whitespace() {
        digits.push_str(field)?;
    }
    Ok(digits)
}

/// The bytes of a text in hexadecimal.
pub(crate) fn bytes_of(alloc: Global, text: &str) -> Result<Vec<u8>, Unmade> {
    let digits = digits_of(alloc, text)?;
    match hex::decode(alloc, digits.as_bytes()) {
        Ok(bytes) => Ok(bytes),
        Err(_) => Err(Unmade::Text("digits")),
    }
}

/// The bytes of these texts, in sequence.
pub(crate) fn joined(alloc: Global, texts: &[&str]) -> Result<Vec<u8>, Unmade> {
    let mut bytes = Vec::new(alloc);
    for text in texts {
        bytes.extend_from_slice(&bytes_of(alloc, text)?)?;
    }
    Ok(bytes)
}

/// A refusal as text: its number and its name.
pub(crate) fn refused(alloc: Global, refusal: WireError) -> Result<String, Unmade> {
    Ok(format!(in alloc; "{refusal}")?)
}

// How many bytes were used, and for what.
fn used_for(alloc: Global, used: usize, value: String) -> Result<String, Unmade> {
    Ok(format!(in alloc; "{used} bytes: {value}")?)
}

/// What `decode_batch` gives for a text: the bytes that it takes and the batch, or the refusal.
pub(crate) fn batch_at(alloc: Global, text: &str) -> Result<String, Unmade> {
    let bytes = bytes_of(alloc, text)?;
    match decode_batch(alloc, &bytes) {
        Ok((batch, used)) => used_for(alloc, used, show_batch(alloc, &batch)?),
        Err(refusal) => refused(alloc, refusal),
    }
}

/// What `decode_reply` gives for a text: the bytes that it takes and the reply, or the refusal.
pub(crate) fn reply_at(alloc: Global, text: &str) -> Result<String, Unmade> {
    let bytes = bytes_of(alloc, text)?;
    match decode_reply(alloc, &bytes) {
        Ok((reply, used)) => used_for(alloc, used, show_reply(alloc, &reply)?),
        Err(refusal) => refused(alloc, refusal),
    }
}

// Encodes a batch in this wire version.
fn encoded(alloc: Global, version: WireVersion, batch: &Batch) -> Result<Vec<u8>, WireError> {
    match version {
        WireVersion::One => encode_batch_1(alloc, batch),
        WireVersion::Two => encode_batch(alloc, batch),
    }
}

// Whether the batch of these bytes is encoded in this wire version as the same bytes.
fn is_again(alloc: Global, version: WireVersion, bytes: &[u8]) -> Result<bool, WireError> {
    let (batch, _) = decode_batch(alloc, bytes)?;
    let again = encoded(alloc, version, &batch)?;
    Ok(again.as_slice() == bytes)
}

fn is_reply_again(alloc: Global, bytes: &[u8]) -> Result<bool, WireError> {
    let (reply, _) = decode_reply(alloc, bytes)?;
    let again = encode_reply(alloc, &reply)?;
    Ok(again.as_slice() == bytes)
}

// What was read, and whether it was encoded as the same bytes again.
fn both_ways(alloc: Global, shown: String, is_again: bool) -> Result<String, Unmade> {
    if is_again {
        return Ok(shown);
    }
    Ok(format!(in alloc; "{shown}, and other bytes")?)
}

/// As [`batch_at`], of a text that the batch has in this wire version.
pub(crate) fn batch_both_ways(
    alloc: Global,
    version: WireVersion,
    text: &str,
) -> Result<String, Unmade> {
    let bytes = bytes_of(alloc, text)?;
    let is_again = is_again(alloc, version, &bytes) == Ok(true);
    both_ways(alloc, batch_at(alloc, text)?, is_again)
}

/// As [`reply_at`], of a text that the reply has.
pub(crate) fn reply_both_ways(alloc: Global, text: &str) -> Result<String, Unmade> {
    let bytes = bytes_of(alloc, text)?;
    let is_again = is_reply_again(alloc, &bytes) == Ok(true);
    both_ways(alloc, reply_at(alloc, text)?, is_again)
}
