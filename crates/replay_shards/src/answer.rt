//! The answers of all shards to a batch as one.

ghost use Rattle.std.specs.Prelude.{◌≡◌, ◌<◌, ◌↔◌, ◌⊎◌, All, Any, IfOk, IsTrue, MatchOption};
ghost use Rattle.std.specs.Prelude.{length, map, vec_items};
ghost use Rattle.keyspace.specs.storage.InOrder.{Rise};
ghost use Rattle.keyspace.specs.Answer.{version_of_answer};
ghost use Rattle.replay_shards.specs.Answers.{HaveReplied, IsAnswerTogether, IsHeld, IsNever};
ghost use Rattle.replay_shards.specs.Answers.{noted_each};
ghost use Rattle.replay_shards.specs.Notes.{first_notes, version_of_note};

use crate::entries::combined_reply;
use crate::note::{Note, note_of};
use crate::noted_reply::NotedReply;
use keyspace::Answer;
use std::alloc::{AllocError, Global};

/// Combines the answers of all shards to a batch of this version: `Never` if a shard says so,
/// otherwise `Held` if one says so, otherwise the combined reply. If the shards have replied to
/// different batches of this version, the answer is `Never`. Each shard has its answer and its
/// notes at its number; the notes are in the order of their versions.
///
/// An error is that memory was refused.
#[tactic(auto, using(crate::proofs::Replied::natural_of))]
pub fn combined_answer(
    alloc: Global,
    version: i64,
    answers: &[Answer],
    notes: &[Vec<Note>],
) -> Result<Answer, AllocError>
    requires as_many { length answers.now ≡ length notes.now }
    requires some { 0 < length answers.now }
    requires of_version { All (λ answer. version_of_answer answer ≡ version) answers.now }
    requires in_order { All (λ own. Rise version_of_note own.items) notes.now }
    ensures together { IfOk result (IsAnswerTogether version answers.now
        (first_notes version (map vec_items notes.now))) }
    ensures version { IfOk result (λ answer. version_of_answer answer ≡ version) }
{
    if has_never(answers) {
        return Ok(Answer::Never(version));
    }
    let Some(each) = noted_replies(alloc, version, answers, notes)? else {
        return Ok(Answer::Held(version));
    };
    match combined_reply(alloc, version, &each)? {
        Some(reply) => Ok(Answer::Reply(reply)),
        None => Ok(Answer::Never(version)),
    }
}

// Returns whether one of the answers is `Never`.
fn has_never(answers: &[Answer]) -> bool
    ensures never { IsTrue result ↔ Any IsNever answers.now }
{
    for answer in answers {
        if let Answer::Never(_) = answer {
            return true;
        }
    }
    false
}

// Returns the replies of all shards with their notes, or none if an answer isn't a reply.
fn noted_replies<'a>(
    alloc: Global,
    version: i64,
    answers: &'a [Answer],
    notes: &'a [Vec<Note>],
) -> Result<Option<Vec<NotedReply<'a>>>, AllocError>
    requires as_many { length answers.now ≡ length notes.now }
    requires in_order { All (λ own. Rise version_of_note own.items) notes.now }
    ensures replies { IfOk result (λ found. MatchOption found
        (Any (λ answer. IsNever answer ⊎ IsHeld answer) answers.now)
        (λ each. HaveReplied answers.now (first_notes version (map vec_items notes.now))
        (noted_each each.items))) }
{
    let mut each = Vec::with_capacity(alloc, answers.len())?;
    for (shard, answer) in answers.iter().enumerate() {
        let Answer::Reply(reply) = answer else {
            return Ok(None);
        };
        let reads = note_of(&notes[shard], version);
        each.push(NotedReply { reply, reads })?;
    }
    Ok(Some(each))
}
