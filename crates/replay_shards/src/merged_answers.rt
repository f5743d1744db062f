//! The answers of all shards to one proxy, as the answers of one.

ghost use Rattle.std.specs.Prelude.{◌≡◌, ◌<◌, All, IfOk, length, map, vec_items, vec_len};
ghost use Rattle.std.specs.List.{AllZip};
ghost use Rattle.keyspace.specs.storage.InOrder.{Rise};
ghost use Rattle.keyspace.specs.Answer.{version_of_answer};
ghost use Rattle.replay_shards.specs.Matching.{IsComplete, match_of};
ghost use Rattle.replay_shards.specs.Merging.{AreMerged, IsOfMatch};
ghost use Rattle.replay_shards.specs.Notes.{version_of_note};

use crate::answer::combined_answer;
use crate::answer_match::{Matched, match_all};
use crate::note::Note;
use keyspace::Answer;
use std::alloc::{AllocError, Global};

/// Combines the answers of all shards to one proxy. An answer is combined with the answers of the
/// other shards of the same version: the first of a version with the first, the second with the
/// second. One that another shard lacks, as after a stop, is omitted. The answers and the notes of
/// each shard are in the order of their versions.
///
/// An error is that memory was refused.
#[tactic(auto, using(crate::proofs::Merged::complete_for, crate::proofs::Merged::merged))]
pub fn merge_answers(
    alloc: Global,
    each: Vec<Vec<Answer>>,
    notes: &[Vec<Note>],
) -> Result<Vec<Answer>, AllocError>
    requires some { 0 < vec_len each }
    requires as_many { vec_len each ≡ length notes.now }
    requires in_order { All (λ own. Rise version_of_answer own.items) each.items }
    requires notes_in_order { All (λ own. Rise version_of_note own.items) notes.now }
    ensures merged { IfOk result (λ merged. AreMerged (map vec_items each.items)
        (map vec_items notes.now) merged.items) }
{
    let matched = match_all(alloc, each)?;
    combine_all(alloc, matched, notes)
}

// Combines the answers of each match.
#[tactic(auto, using(crate::proofs::Combining::so_far_none, crate::proofs::Combining::so_far_all))]
fn combine_all(
    alloc: Global,
    matched: Vec<Matched>,
    notes: &[Vec<Note>],
) -> Result<Vec<Answer>, AllocError>
    requires some { 0 < length notes.now }
    requires complete { All (IsComplete (length notes.now)) (map match_of matched.items) }
    requires notes_in_order { All (λ own. Rise version_of_note own.items) notes.now }
    ensures all { IfOk result (λ merged. AllZip (IsOfMatch (map vec_items notes.now))
        (map match_of matched.items) merged.items) }
{
    let mut merged = Vec::with_capacity(alloc, matched.len())?;
    for one in matched {
        merged.push(combined_one(alloc, one, notes)?)?;
    }
    Ok(merged)
}

// Combines the answers of a match.
fn combined_one(alloc: Global, one: Matched, notes: &[Vec<Note>]) -> Result<Answer, AllocError>
    requires some { 0 < length notes.now }
    requires complete { IsComplete (length notes.now) (match_of one) }
    requires notes_in_order { All (λ own. Rise version_of_note own.items) notes.now }
    ensures together { IfOk result (IsOfMatch (map vec_items notes.now) (match_of one)) }
{
    combined_answer(alloc, one.version, &one.answers, notes)
}
