//! A key that is as long as it may be, and one byte longer.

use crate::rows::expect;
use crate::texts::{bytes_of, refused};
use keyspace::{Batch, RangeRef};
use std::alloc::{AllocError, Global};
use std::test::Fail;
use test_values::Unmade;
use wire::decode_batch;

// The digits of this head and of a key of n bytes.
fn frame_to_key(alloc: Global, head: &str, length: usize) -> Result<Vec<u8>, Unmade> {
    let mut bytes = bytes_of(alloc, head)?;
    for _ in 0..length {
        bytes.push(b'a').map_err(AllocError::from)?;
    }
    Ok(bytes)
}

// The lengths of the keys of the batch's writes.
fn key_lengths(alloc: Global, batch: &Batch) -> Result<String, Unmade> {
    let mut text = String::new(alloc);
    for index in 0..batch.txns.len() {
        let writes = batch.txns.txn(index).writes;
        for number in 0..writes.len() {
            push_lengths(&mut text, &writes.get(number))?;
        }
    }
    Ok(text)
}

fn push_lengths(text: &mut String, range: &RangeRef<'_>) -> Result<(), Unmade> {
    let begin = range.begin().len();
    let end = range.end().len();
    write!(text, " {begin} to {end}")?;
    Ok(())
}

// What comes of the frame of such a head and key: the bytes that it takes, and the lengths of the
// keys.
fn lengths_of(alloc: Global, head: &str, length: usize) -> Result<String, Unmade> {
    let bytes = frame_to_key(alloc, head, length)?;
    match decode_batch(alloc, &bytes) {
        Ok((batch, used)) => {
            let lengths = key_lengths(alloc, &batch)?;
            Ok(format!(in alloc; "{used} bytes:{lengths}")?)
        }
        Err(refusal) => refused(alloc, refusal),
    }
}

// A frame with one write, from the empty key to a key: its body has 44 bytes beside that key.
#[test]
fn longest_key(rt: HostRuntime) -> Result<(), Fail> {
    let head = "0000273d 01 0000000000000000 0000000000000064 ffffffffffffffff 0001 \
         0000000000000000 00 0000 0001 0000 2711";
    expect(
        &rt,
        lengths_of(rt.alloc(), head, 10_001),
        "10049 bytes: 0 to 10001",
    )?;
    let head = "0000273e 01 0000000000000000 0000000000000064 ffffffffffffffff 0001 \
         0000000000000000 00 0000 0001 0000 2712";
    expect(&rt, lengths_of(rt.alloc(), head, 10_002), "8 KeyLength")
}
