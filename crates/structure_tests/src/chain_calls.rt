//! A growth of the gate and of the replies that is refused.

use chain::{ChainError, Gate, Replies};
use keyspace::Batch;
use std::alloc::Global;
use std::test::Fail;
use test_values::{Unmade, batch_of, reply};

// The proxy and the version of a batch that left, or -1.
fn left(leaving: Option<(usize, Batch)>) -> (usize, i64) {
    leaving.map_or((0, -1), |held| (held.0, held.1.version))
}

// The version of the reply of proxy 0 that is kept, or -1.
fn kept(replies: &Replies, version: i64) -> i64 {
    replies.find(0, version).map_or(-1, |reply| reply.version)
}

// Keeps proxy 0's reply of this version, unless there is one. It has no entries.
fn put(
    alloc: Global,
    replies: &mut Replies,
    version: i64,
) -> Result<Result<(), ChainError>, Unmade> {
    let reply = reply(version, Vec::new(alloc))?;
    if replies.find(0, reply.version).is_some() {
        return Ok(Ok(()));
    }
    Ok(replies.put(0, reply))
}

// Holds the batch. If memory is refused, it tries once more. Returns whether the refusal changes
// nothing.
fn hold_at_last(gate: &mut Gate, batch: Batch) -> bool {
    let held = gate.held();
    let given = (batch.previous, batch.version, batch.received);
    let Err((refusal, back)) = gate.hold(0, batch) else {
        return true;
    };
    let is_same = (back.previous, back.version, back.received) == given && gate.held() == held;
    gate.hold(0, back).is_ok() && is_same && refusal == ChainError::Memory
}

// Keeps the reply of this version. If memory is refused, it tries once more. Returns whether the
// refusal changes nothing.
fn put_at_last(alloc: Global, replies: &mut Replies, version: i64) -> Result<bool, Unmade> {
    let Err(refusal) = put(alloc, replies, version)? else {
        return Ok(true);
    };
    let is_same = kept(replies, version) == -1;
    Ok(put(alloc, replies, version)?.is_ok() && is_same && refusal == ChainError::Memory)
}

// Holds a batch of each version, and keeps a reply. Returns whether no refusal changes anything.
fn fills(alloc: Global, gate: &mut Gate, replies: &mut Replies) -> Result<bool, Unmade> {
    let mut is_right = true;
    for number in 1..40_u32 {
        let version = i64::from(number);
        is_right &= put_at_last(alloc, replies, version)?;
        let batch = batch_of(alloc, version - 1, version, -1, Vec::new(alloc))?;
        is_right &= hold_at_last(gate, batch);
    }
    Ok(is_right)
}

// Returns whether each of these is there, until it is taken.
fn empties(gate: &mut Gate, replies: &mut Replies) -> bool {
    let mut is_right = true;
    for number in 1..40_u32 {
        let version = i64::from(number);
        is_right &= kept(replies, version) == version;
        replies.forget_to(0, version);
        is_right &= left(gate.next_for(version)) == (0, version);
    }
    is_right && gate.held() == 0
}

// Its outcome is the same whichever one growth is refused.
#[test]
fn one_growth_refused(rt: HostRuntime) -> Result<(), Fail> {
    let mut gate = Gate::new(rt.alloc());
    let mut replies = Replies::new(rt.alloc());
    assert!(rt; fills(rt.alloc(), &mut gate, &mut replies)?);
    assert!(rt; empties(&mut gate, &mut replies));
    Ok(())
}
