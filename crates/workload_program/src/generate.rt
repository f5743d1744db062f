//! Batches of transactions, and their frames.

ghost use Rattle.std.specs.Prelude.{◌≡◌, ◌≢◌, ◌<◌, ◌≤◌, ◌-◌, ℕ, negsuc, List, Err, All, IfErr};
ghost use Rattle.std.specs.Prelude.{IfOk, OnErr, OnOk, length, vec_len};
ghost use Rattle.keyspace.specs.declared.batch.TheConstants.{MAX_TXNS};
ghost use Rattle.std.specs.Io.KnownBytes.{Appends};
ghost use Rattle.workload_program.specs.Versions.{version_of};
ghost use Rattle.workload_program.specs.Txns.{IsTxnOf, IsSnapshotOf};
ghost use Rattle.workload_program.specs.Chain.{previous_of, AreFrames, BreaksOff};

use crate::chain::{version, version_before};
use crate::fault::Fault;
use crate::plan::Plan;
use crate::random::Random;
use crate::ranges::draw_ranges;
use crate::shape::Shape;
use keyspace::{Batch, Sequence, Txn};
use std::alloc::Global;
use wire::{Sink, encode_batch_1, write_all};

/// The seed of all files.
const SEED: u64 = 20_210_620;

/// How many batches before a batch the answer lies that the proxy received last.
const BATCHES_IN_FLIGHT: u32 = 8;

// Draws the snapshot of a transaction of the batch of this number.
fn draw_snapshot(random: &mut Random, shape: Shape, number: u32) -> i64
    ensures snapshot { IsSnapshotOf shape number result }
{
    let back = shape.look_back(random);
    version(shape, number.saturating_sub(back))
}

// Draws a transaction of the batch of this number.
fn draw_txn(alloc: Global, random: &mut Random, shape: Shape, number: u32) -> Result<Txn, Fault>
    ensures txn { IfOk result (IsTxnOf shape number) }
    ensures memory { IfErr result (λ fault. fault ≡ Fault.Memory) }
{
    let snapshot = draw_snapshot(random, shape, number);
    let reads = draw_ranges(alloc, random, shape, shape.reads())?;
    let writes = draw_ranges(alloc, random, shape, shape.writes())?;
    let reads = Sequence::new(reads);
    Ok(Txn::checked(snapshot, false, reads, Sequence::new(writes))?)
}

// Draws `count` transactions of the batch of this number.
fn draw_txns(
    alloc: Global,
    random: &mut Random,
    shape: Shape,
    number: u32,
    count: usize,
) -> Result<Vec<Txn>, Fault>
    ensures count { IfOk result (λ txns. vec_len txns ≡ count) }
    ensures each { IfOk result (λ txns. All (IsTxnOf shape number) txns.items) }
    ensures memory { IfErr result (λ fault. fault ≡ Fault.Memory) }
{
    let mut txns = Vec::with_capacity(alloc, count)?;
    for _ in 0..count {
        txns.push(draw_txn(alloc, random, shape, number)?)?;
    }
    Ok(txns)
}

/// Draws the batch of this number, from 0, with `count` transactions. The batches of a shape are
/// one chain: each follows the version of the one before, and the first follows -1. The proxy has
/// received the answer of eight batches before. If a batch may have that many transactions, only
/// memory may be refused.
pub fn draw_batch(
    alloc: Global,
    random: &mut Random,
    shape: Shape,
    number: u32,
    count: usize,
) -> Result<Batch, Fault>
    ensures version { IfOk result (λ batch. batch.version ≡ version_of shape number) }
    ensures previous { IfOk result (λ batch. batch.previous ≡ previous_of shape number) }
    ensures received_none { IfOk result (λ batch. number < 8 → batch.received ≡ negsuc 0) }
    ensures received { IfOk result (λ batch. 8 ≤ number
        → batch.received ≡ version_of shape (number - 8)) }
    ensures count { IfOk result (λ batch. length batch.txns ≡ count) }
    ensures txns { IfOk result (λ batch. All (IsTxnOf shape number) batch.txns) }
    ensures memory { count ≤ MAX_TXNS → IfErr result (λ fault. fault ≡ Fault.Memory) }
{
    let txns = draw_txns(alloc, random, shape, number, count)?;
    let previous = version_before(shape, number, 1);
    let received = version_before(shape, number, BATCHES_IN_FLIGHT);
    let version = version(shape, number);
    Ok(Batch::checked(alloc, previous, version, received, txns)?)
}

/// Writes the frames of the batches that the plan asks for, and nothing else, and flushes the sink.
/// Returns `Write` where the sink fails, and else `Memory`; a prefix of the frames is written then.
pub fn write_batches<W: Sink>(alloc: Global, plan: Plan, out: &mut W) -> Result<(), Fault>
    ensures written { OnOk result ((bytes : List ℕ)
        × AreFrames plan.shape plan.transactions plan.batches bytes
        × Appends (W.given out.old) (W.given out.new) bytes) }
    ensures broken_off { OnErr result
        (BreaksOff plan.shape plan.transactions plan.batches (W.given out.old) (W.given out.new)) }
    ensures ok { OnOk result (W.failures out.new ≡ W.failures out.old) }
    ensures failed { W.failures out.old < W.failures out.new → result ≡ Err Fault.Write }
    ensures write { IfErr result (λ fault. fault ≡ Fault.Write
        → W.failures out.old < W.failures out.new) }
    ensures never_limit { IfErr result (λ fault. fault ≢ Fault.Limit) }
{
    let mut random = Random::new(SEED);
    for number in 0..plan.batches {
        let batch = draw_batch(alloc, &mut random, plan.shape, number, plan.transactions)?;
        let frame = encode_batch_1(alloc, &batch)?;
        write_all(out, &frame)?;
    }
    out.flush()?;
    Ok(())
}
