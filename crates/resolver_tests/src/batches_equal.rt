//! Batches like those before, resolved by a conflict set. They take memory for their replies alone:
//! the script compares how many allocations the two tests take, of which one resolves twenty
//! batches more.

use crate::chained::Chained;
use keyspace::{Batch, WINDOW};
use std::alloc::{AllocError, Global};
use std::test::Fail;
use test_values::{Unmade, batch};

// Makes the batch of this version: the first transaction commits a range that the second reads, and
// the third asks for its report.
fn of_version(alloc: Global, version: i64) -> Result<Batch, Unmade> {
    let previous = version.saturating_sub(1);
    let text = format!(in alloc;
        "{previous}>{version}: R[b,c) R[m,p) W[b,d) @{version}; R[b,c) W[x,y) @{version}; \
         m R[q,r) W[c,e) W[h,k) @{version}"
    )?;
    batch(alloc, text.as_str())
}

// Adds forty such batches of one chain.
fn push_forty(alloc: Global, batches: &mut Vec<Batch>) -> Result<(), Unmade> {
    for version in 0..40_i64 {
        batches
            .push(of_version(alloc, version)?)
            .map_err(AllocError::from)?;
    }
    Ok(())
}

// Resolves a batch, and returns how many transactions it has.
fn count_resolved(set: &mut Chained, batch: &Batch) -> Result<usize, Unmade> {
    match set.resolve(batch)? {
        Ok(reply) => Ok(reply.entries.len()),
        Err(_stop) => Err(Unmade::Memory),
    }
}

// Resolves these batches, and returns how many transactions they have.
fn count_all(set: &mut Chained, batches: &[Batch]) -> Result<usize, Unmade> {
    let mut txns = 0_usize;
    for batch in batches {
        txns = txns.saturating_add(count_resolved(set, batch)?);
    }
    Ok(txns)
}

fn count_of_new_set(alloc: Global, batches: &[Batch]) -> Result<usize, Unmade> {
    let mut set = Chained::new(alloc, WINDOW, 1_000)?;
    count_all(&mut set, batches)
}

// Makes forty batches, and resolves the first n.
fn resolve(alloc: Global, count: usize) -> Result<usize, Unmade> {
    let mut batches = Vec::new(alloc);
    push_forty(alloc, &mut batches)?;
    count_of_new_set(alloc, &batches[..count.min(batches.len())])
}

#[test]
fn twenty_batches_equal(rt: HostRuntime) -> Result<(), Fail> {
    assert_eq!(rt; resolve(rt.alloc(), 20)?, 60);
    Ok(())
}

#[test]
fn forty_batches_equal(rt: HostRuntime) -> Result<(), Fail> {
    assert_eq!(rt; resolve(rt.alloc(), 40)?, 120);
    Ok(())
}
