//! Answers of several shards, matched by version.

ghost use Rattle.std.specs.Prelude.{◌≡◌, ◌<◌, IfOk, map, vec_items, vec_len};
ghost use Rattle.replay_shards.specs.Matching.{after_first_at, first_at, left_in, match_all};
ghost use Rattle.replay_shards.specs.Matching.{match_next, match_of, match_one, more, single};
ghost use Rattle.replay_shards.specs.Matching.{without_earlier};

use keyspace::Answer;
use replay_output::version_of;
use std::alloc::{AllocError, Global};
use std::mem;

/// An answer of every shard, in the order of the shards, to a batch of this version.
#[derive(Drop)]
pub struct Matched {
    pub version: i64,
    pub answers: Vec<Answer>,
}

// The answers of a shard, in the order of their versions, and the index of the next one.
#[derive(Drop)]
struct Cursor {
    answers: Vec<Answer>,
    next: usize,
}

impl Cursor {
    // Passes over the answers of earlier versions.
    fn pass(&mut self, version: i64)
        ensures left { left_in self.new ≡ without_earlier version (left_in self.old) }
    {
        while self.next < self.answers.len() && version_of(&self.answers[self.next]) < version {
            self.next += 1;
        }
    }

    // Passes over the answers of earlier versions, and takes the next one if it has this version.
    fn take(&mut self, version: i64) -> Option<Answer>
        ensures taken { result ≡ first_at version (without_earlier version (left_in self.old)) }
        ensures left { left_in self.new
            ≡ after_first_at version (without_earlier version (left_in self.old)) }
    {
        self.pass(version);
        let index = self.next;
        if index >= self.answers.len() || version_of(&self.answers[index]) != version {
            return None;
        }
        self.next += 1;
        Some(mem::replace(&mut self.answers[index], Answer::Never(version)))
    }
}

/// Matches the answers of all shards by version. Those of each shard are in the order of their
/// versions.
///
/// An error is that memory was refused.
pub fn match_all(alloc: Global, each: Vec<Vec<Answer>>) -> Result<Vec<Matched>, AllocError>
    requires some { 0 < vec_len each }
    ensures matched { IfOk result (λ matched.
        map match_of matched.items ≡ match_all (map vec_items each.items)) }
{
    let mut each = each.into_iter();
    let Some(first) = each.next() else {
        unreachable!()
    };
    let mut matched = match_one(alloc, first)?;
    for own in each {
        matched = match_next(alloc, matched, own)?;
    }
    Ok(matched)
}

// Returns a match for each answer of the first shard.
fn match_one(alloc: Global, first: Vec<Answer>) -> Result<Vec<Matched>, AllocError>
    ensures matched { IfOk result (λ matched. map match_of matched.items ≡ match_one first.items) }
{
    let mut matched = Vec::with_capacity(alloc, first.len())?;
    for answer in first {
        matched.push(single(alloc, answer)?)?;
    }
    Ok(matched)
}

fn single(alloc: Global, answer: Answer) -> Result<Matched, AllocError>
    ensures single { IfOk result (λ one. match_of one ≡ single answer) }
{
    let version = version_of(&answer);
    let mut answers = Vec::new(alloc);
    answers.push(answer)?;
    Ok(Matched { version, answers })
}

// Keeps those matches for which the next shard has an answer, and appends it.
fn match_next(
    alloc: Global,
    matched: Vec<Matched>,
    own: Vec<Answer>,
) -> Result<Vec<Matched>, AllocError>
    ensures matched { IfOk result (λ both.
        map match_of both.items ≡ match_next (map match_of matched.items) own.items) }
{
    let mut cursor = Cursor {
        answers: own,
        next: 0,
    };
    let mut both = Vec::with_capacity(alloc, matched.len())?;
    for one in matched {
        if let Some(answer) = cursor.take(one.version) {
            both.push(more(one, answer)?)?;
        }
    }
    Ok(both)
}

fn more(one: Matched, answer: Answer) -> Result<Matched, AllocError>
    ensures more { IfOk result (λ both. match_of both ≡ more (match_of one) answer) }
{
    let mut one = one;
    one.answers.push(answer)?;
    Ok(one)
}
