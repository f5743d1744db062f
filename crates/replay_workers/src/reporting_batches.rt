//! The batches of a file, whose transactions all ask for their reports.

ghost use Rattle.std.specs.Prelude.{◌≡◌, None, map, IfOk};
ghost use Rattle.std.specs.Io.KnownBytes.{IsAtEnd};
ghost use Rattle.std.specs.List.{All};
ghost use Rattle.replay_output.specs.declared.options.reports.Reports.TheVariants as reports;
ghost use Rattle.replay_workers.specs.Asking.{asking_reader, asking_refusal, asking_row};
ghost use Rattle.replay_workers.specs.Reporting.{TakesResolved, all_asking};
ghost use Rattle.wire.specs.Batches.{IsFaultAt};

use keyspace::{Batch, Row, UnorderedBatch};
use std::alloc::{AllocError, Global};
use wire::{Batches, Frames, Source, WireError, read_frames};

/// Iterates over the batches of a reader, frame after frame. All their transactions ask for their
/// reports, whether or not they do so in the frame.
#[derive(Drop)]
pub struct AskingFrames<S> {
    frames: Frames<S>,
    alloc: Global,
    // Memory was refused for a batch that was read. No later one is given.
    out_of_memory: bool,
}

/// Returns the batches of a reader. Reads nothing yet.
pub fn read_asking<S: Source>(alloc: Global, reader: S) -> AskingFrames<S>
    ensures reader { asking_reader result ≡ reader }
    ensures fresh { asking_refusal result ≡ None }
{
    AskingFrames {
        frames: read_frames(alloc, reader),
        alloc,
        out_of_memory: false,
    }
}

/// Returns the batches of each reader. Reads nothing yet.
pub fn asking_each<S: Source + Drop>(
    alloc: Global,
    readers: Vec<S>,
) -> Result<Vec<AskingFrames<S>>, AllocError>
    ensures readers { IfOk result (λ each. map asking_reader each.items ≡ readers.items) }
    ensures fresh { IfOk result
        (λ each. All (λ batches. asking_refusal batches ≡ None) each.items) }
{
    let mut each = Vec::with_capacity(alloc, readers.len())?;
    for reader in readers {
        each.push_reserved(read_asking(alloc, reader));
    }
    Ok(each)
}

impl<S: Source> Batches for AskingFrames<S> {
    ghost gives = { λ old new. TakesResolved reports.All (S.remaining (asking_reader old))
        (S.remaining (asking_reader new)) };

    ghost stays = { λ _ _. Unit {0} };

    ghost is_at_end = { λ batches. IsAtEnd (S.remaining (asking_reader batches)) };

    ghost is_at_fault = { λ batches. IsFaultAt (S.remaining (asking_reader batches)) };

    ghost refusal = { asking_refusal };

    ghost failures = { λ batches. S.failures (asking_reader batches) };

    fn next(&mut self) -> Result<Option<Batch>, WireError> {
        if self.out_of_memory {
            return Err(WireError::Memory);
        }
        let Some(batch) = self.frames.next_unordered()? else {
            return Ok(None);
        };
        let Ok(batch) = all_asking(batch).order(self.alloc) else {
            self.out_of_memory = true;
            return Err(WireError::Memory);
        };
        Ok(Some(batch))
    }
}

// Returns the same batch, whose transactions all ask for their reports. No key is copied.
fn all_asking(batch: UnorderedBatch) -> UnorderedBatch
    ensures asking { result ≡ all_asking batch }
{
    let previous = batch.previous;
    let version = batch.version;
    let received = batch.received;
    let mut tables = batch.into_tables();
    ask_all(&mut tables.rows);
    UnorderedBatch::new(previous, version, received, tables)
}

// Makes the transactions of all rows ask for their reports.
fn ask_all(rows: &mut [Row])
    ensures asking { rows.new ≡ map asking_row rows.old }
{
    for row in rows.iter_mut() {
        row.marked = true;
    }
}
