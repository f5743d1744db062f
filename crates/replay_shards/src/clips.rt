//! The batches of a file, clipped to a shard.

ghost use Rattle.std.specs.Prelude.{◌≡◌, ◌<◌, ◌++◌, [], IfOk, None, OnErr, OnOk, length, map};
ghost use Rattle.std.specs.Prelude.{slice_get};
ghost use Rattle.std.specs.Io.KnownBytes.{IsAtEnd};
ghost use Rattle.std.specs.List.{All};
ghost use Rattle.serial.specs.Shards.{shards};
ghost use Rattle.wire.specs.Batches.{IsFaultAt};
ghost use Rattle.replay_shards.specs.Clips.{GivesClip, GivesNoClip, IsNotedClip};
ghost use Rattle.replay_shards.specs.Clips.{bytes_left, failures_of, refusal_of_clips};
ghost use Rattle.replay_shards.specs.Clips.{shard_of_clips};
ghost use Rattle.replay_shards.specs.Notes.{note_with};

use crate::note::{Note, requests_report};
use crate::own_shard::OwnShard;
use keyspace::{Batch, UnorderedBatch};
use shards::{Clipped, ReadIndices, SplitPoints, clip_in_place};
use std::alloc::{AllocError, Global};
use std::sync::Arc;
use wire::{Batches, Frames, Source, WireError, read_frames};

/// The clips of the batches of a file to a shard, in order: what a worker of that shard sends.
/// Beside them it keeps what reports need.
#[derive(Drop)]
pub struct Clips<S> {
    frames: Frames<S>,
    shard: OwnShard,
    alloc: Global,
    notes: Vec<Note>,
    // Memory was refused for a clip, which ended the clips.
    is_refused: bool,
}

impl<S: Source> Clips<S> {
    /// Creates the clips of the batches of a reader to this shard. Reads nothing yet.
    pub fn new(alloc: Global, reader: S, points: Arc<SplitPoints, Global>, shard: usize) -> Self
        requires within { shard < length (shards points.value) }
        ensures reader { bytes_left S.remaining result ≡ S.remaining reader }
        ensures shard { shard_of_clips result ≡ slice_get (shards points.value) shard }
        ensures fresh { refusal_of_clips result ≡ None }
        ensures none { result.notes.items ≡ [] }
    {
        Clips {
            frames: read_frames(alloc, reader),
            shard: OwnShard {
                points,
                number: shard,
            },
            alloc,
            notes: Vec::new(alloc),
            is_refused: false,
        }
    }

    // Clips a batch to the shard, and keeps its note.
    fn clip(&mut self, batch: UnorderedBatch) -> Result<Batch, AllocError>
        ensures clip { IfOk result (IsNotedClip self.old self.new batch) }
        ensures stays { OnErr result (GivesNoClip self.old self.new) }
        ensures frames { self.new.frames ≡ self.old.frames }
        ensures refused { self.new.is_refused ≡ self.old.is_refused }
    {
        let Clipped { batch: clip, reads } = clip_in_place(
            self.alloc,
            batch,
            &self.shard.points,
            self.shard.number,
        )?;
        self.keep_note(&clip, reads)?;
        Ok(clip)
    }

    // Keeps the indices of the read ranges of this clip, if one of its transactions requests a
    // report.
    fn keep_note(&mut self, clip: &Batch, reads: ReadIndices) -> Result<(), AllocError>
        ensures notes { OnOk result
            (self.new.notes.items ≡ self.old.notes.items ++ note_with reads clip.now) }
        ensures same { OnErr result (self.new.notes.items ≡ self.old.notes.items) }
        ensures shard { shard_of_clips self.new ≡ shard_of_clips self.old }
        ensures frames { self.new.frames ≡ self.old.frames }
        ensures refused { self.new.is_refused ≡ self.old.is_refused }
    {
        if !requests_report(clip) {
            return Ok(());
        }
        let note = Note {
            version: clip.version,
            reads,
        };
        self.notes.push(note)?;
        Ok(())
    }
}

impl<S: Drop> Clips<S> {
    /// Returns the notes of the batches that were read, in order.
    pub fn into_notes(self) -> Vec<Note>
        ensures notes { result ≡ self.notes }
    {
        self.notes
    }
}

impl<S: Source> Batches for Clips<S> {
    ghost gives = { GivesClip S.remaining };

    ghost stays = { GivesNoClip };

    ghost is_at_end = { λ clips. IsAtEnd (bytes_left S.remaining clips) };

    ghost is_at_fault = { λ clips. IsFaultAt (bytes_left S.remaining clips) };

    ghost refusal = { refusal_of_clips };

    ghost failures = { failures_of S.failures };

    fn next(&mut self) -> Result<Option<Batch>, WireError> {
        if self.is_refused {
            return Err(WireError::Memory);
        }
        let Some(batch) = self.frames.next_unordered()? else {
            return Ok(None);
        };
        match self.clip(batch) {
            Ok(clip) => Ok(Some(clip)),
            Err(_) => {
                self.is_refused = true;
                Err(WireError::Memory)
            }
        }
    }
}

/// Returns the clips of the batches of each reader to this shard. Reads nothing yet.
pub fn clips_each<S: Source + Drop>(
    alloc: Global,
    readers: Vec<S>,
    points: &Arc<SplitPoints, Global>,
    shard: usize,
) -> Result<Vec<Clips<S>>, AllocError>
    requires within { shard < length (shards points.now.value) }
    ensures readers { IfOk result (λ each. map (bytes_left S.remaining) each.items
        ≡ map S.remaining readers.items) }
    ensures shard { IfOk result (λ each.
        All (λ own. shard_of_clips own ≡ slice_get (shards points.now.value) shard) each.items) }
    ensures fresh { IfOk result (λ each. All (λ own. refusal_of_clips own ≡ None) each.items) }
    ensures none { IfOk result (λ each. All (λ own. own.notes.items ≡ []) each.items) }
{
    let mut each = Vec::with_capacity(alloc, readers.len())?;
    for reader in readers {
        each.push(Clips::new(alloc, reader, Arc::try_clone(points)?, shard))?;
    }
    Ok(each)
}
