//! What is kept beside the clip of a batch, so that reports get the indices of the original batch.

ghost use Rattle.std.specs.Prelude.{◌≡◌, option_map, slice_get};
ghost use Rattle.std.specs.List.{list_any};
ghost use Rattle.keyspace.specs.storage.InOrder.{Rise};
ghost use Rattle.replay_shards.specs.Notes.{first_note, reads_at, requests_report, version_of_note};

use keyspace::{Batch, Versioned};
use shards::ReadIndices;

/// The original indices of the read ranges of a clip. Only a batch with a transaction that requests
/// a report has one.
#[derive(Debug, Drop)]
pub struct Note {
    /// The version of the batch.
    pub version: i64,
    pub reads: ReadIndices,
}

impl Versioned for Note {
    ghost item_version = { version_of_note };

    fn version(&self) -> i64 {
        self.version
    }
}

/// Returns whether some transaction of the batch requests a report.
pub fn requests_report(batch: &Batch) -> bool
    ensures some { result ≡ list_any requests_report batch.now.txns }
{
    for index in 0..batch.txns.len() {
        if batch.txns.txn(index).marked {
            return true;
        }
    }
    false
}

/// Returns the indices of the first batch of this version, if it has a note. The notes are in the
/// order of their versions.
pub fn note_of(notes: &[Note], version: i64) -> Option<&ReadIndices>
    requires in_order { Rise version_of_note notes.now }
    ensures first { option_map (λ reads. reads.now) result ≡ first_note version notes.now }
{
    let first = notes.partition_point(|note| note.version < version);
    reads_at(notes, first, version)
}

// Returns the indices of the note at the index, if there is one of this version.
fn reads_at(notes: &[Note], index: usize, version: i64) -> Option<&ReadIndices>
    ensures reads { option_map (λ reads. reads.now) result
        ≡ reads_at version (slice_get notes.now index) }
{
    if index >= notes.len() {
        return None;
    }
    let note = &notes[index];
    if note.version == version {
        Some(&note.reads)
    } else {
        None
    }
}
