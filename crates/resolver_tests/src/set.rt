//! Batches by hand, resolved by a conflict set.

use crate::chained::Chained;
use keyspace::{Batch, Txn, WINDOW};
use std::alloc::{AllocError, Global};
use std::test::Fail;
use test_values::{Unmade, batch_of, ranges, show_reply, single_key, txn};

/// More boundaries than any of these sets keeps.
pub const LIMIT: usize = 1_000_000;

// Resolves the batch, and writes what comes of it: its reply or the stop.
fn outcome(alloc: Global, set: &mut Chained, batch: &Batch) -> Result<String, Unmade> {
    match set.resolve(batch)? {
        Ok(reply) => show_reply(alloc, &reply),
        Err(stop) => Ok(format!(in alloc; "{stop}")?),
    }
}

// A transaction that reads and writes the key of this byte.
fn of_one_key(alloc: Global, byte: u8) -> Result<Txn, Unmade> {
    let reads = ranges(alloc, &[(&[byte], &[byte, 0])])?;
    txn(0, false, reads, ranges(alloc, &[(&[byte], &[byte, 0])])?)
}

// Adds seventy such transactions, and one that reads the two keys between these bytes.
fn push_txns(alloc: Global, txns: &mut Vec<Txn>) -> Result<(), Unmade> {
    for byte in 0..70_u8 {
        txns.push(of_one_key(alloc, byte)?)
            .map_err(AllocError::from)?;
    }
    let reads = ranges(alloc, &[(&[63], &[65])])?;
    txns.push(txn(0, true, reads, Vec::new(alloc))?)
        .map_err(AllocError::from)?;
    Ok(())
}

// A batch of these transactions.
fn seventy_keys(alloc: Global) -> Result<Batch, Unmade> {
    let mut txns = Vec::new(alloc);
    push_txns(alloc, &mut txns)?;
    batch_of(alloc, -1, 100, -1, txns)
}

// Resolves the batch by a new set.
fn outcome_of_new_set(alloc: Global, batch: &Batch) -> Result<String, Unmade> {
    let mut set = Chained::new(alloc, WINDOW, LIMIT)?;
    outcome(alloc, &mut set, batch)
}

fn seventy_outcomes(alloc: Global) -> Result<String, Unmade> {
    let batch = seventy_keys(alloc)?;
    outcome_of_new_set(alloc, &batch)
}

// All seventy commit, and the last meets the first of the keys that it reads.
fn seventy_lines(alloc: Global) -> Result<String, Unmade> {
    let mut line = String::from_str(alloc, "100")?;
    for _ in 0..70 {
        line.push_str(" committed")?;
    }
    line.push_str(" conflict:0")?;
    Ok(line)
}

#[test]
fn seventy_single_keys(rt: HostRuntime) -> Result<(), Fail> {
    let found = seventy_outcomes(rt.alloc())?;
    let expected = seventy_lines(rt.alloc())?;
    assert_eq!(rt; found.as_str(), expected.as_str());
    Ok(())
}

// The bytes of the longest key.
const ONES: [u8; 39] = [1; 39];

// A batch of this version that writes one key of n bytes, 39 at most. The set doesn't look at the
// version before.
fn write_of_key(alloc: Global, version: i64, length: usize) -> Result<Batch, Unmade> {
    let key = single_key(alloc, &ONES[..length.min(ONES.len())])?;
    let writes = vec![in alloc; key].map_err(AllocError::from)?;
    let txn = txn(0, false, Vec::new(alloc), writes)?;
    let txns = vec![in alloc; txn].map_err(AllocError::from)?;
    batch_of(alloc, -1, version, -1, txns)
}

// Resolves such a batch.
fn write_key(alloc: Global, set: &mut Chained, version: i64, length: usize) -> Result<(), Unmade> {
    match set.resolve(&write_of_key(alloc, version, length)?)? {
        Ok(_reply) => Ok(()),
        Err(_stop) => Err(Unmade::Memory),
    }
}

// Writes keys further apart than the window, and returns the first after which there are more
// boundaries than its own.
fn first_of_too_many(alloc: Global, set: &mut Chained) -> Result<Option<u32>, Unmade> {
    for number in 0..10_000_u32 {
        let length = number as usize % 40;
        write_key(alloc, set, 6_000_000 * (i64::from(number) + 1), length)?;
        if set.boundaries() != if length == 0 { 2 } else { 3 } {
            return Ok(Some(number));
        }
    }
    Ok(None)
}

fn too_many_of_new_set(alloc: Global) -> Result<Option<u32>, Unmade> {
    let mut set = Chained::new(alloc, WINDOW, LIMIT)?;
    first_of_too_many(alloc, &mut set)
}

#[test]
fn boundaries_stay_small(rt: HostRuntime) -> Result<(), Fail> {
    assert_eq!(rt; too_many_of_new_set(rt.alloc())?, None);
    Ok(())
}
