//! What all shards have answered to one proxy, as lines of the combined answers.

ghost use Rattle.std.specs.Prelude.{◌≡◌, ◌<◌, IfOk, map, vec_items, vec_len};
ghost use Rattle.std.specs.List.{All};
ghost use Rattle.keyspace.specs.storage.InOrder.{in_order_by};
ghost use Rattle.replay_output.specs.Line.{IsLineOf, answer_of, answers_of, version_of_line};
ghost use Rattle.replay_shards.specs.Answered.{AreAnswersTogether, AreKept, IsKept};
ghost use Rattle.replay_shards.specs.Answered.{sorted_answers, sorted_notes};
ghost use Rattle.replay_shards.specs.Notes.{version_of_note};

use crate::merged_answers::merge_answers;
use crate::note::Note;
use keyspace::{Answer, sort_by_version};
use replay_output::{Line, Style};
use replay_summary::Outcome;
use std::alloc::{AllocError, Global};

/// What one shard has answered to a proxy.
#[derive(Drop)]
pub struct Answered {
    /// Lines that keep the answers, in the order in which the shard gave them.
    pub lines: Vec<Line>,
    /// The notes of the proxy's batches, in the order in which they were read.
    pub notes: Vec<Note>,
}

// The same in the order of versions, of every shard.
#[derive(Drop)]
struct InOrder {
    answers: Vec<Vec<Answer>>,
    notes: Vec<Vec<Note>>,
}

/// Combines what all shards have answered to this proxy, and returns the lines of the combined
/// answers, in the order of their versions. An answer that another shard lacks, as after a stop,
/// has no line.
///
/// An error is that memory was refused.
#[tactic(auto, using(crate::proofs::Sorted::rise_each, crate::proofs::Sorted::notes_rise_each))]
pub fn combine_answered(
    alloc: Global,
    style: Style,
    proxy: usize,
    each: Vec<Answered>,
) -> Result<Vec<Line>, AllocError>
    requires some { 0 < vec_len each }
    requires kept { All AreKept each.items }
    ensures answers { IfOk result
        (λ lines. AreAnswersTogether each.items (answers_of lines.items)) }
    ensures lines { IfOk result (λ lines. All (IsLineOf style proxy) lines.items) }
{
    let sorted = in_order(alloc, each)?;
    let merged = merge_answers(alloc, sorted.answers, &sorted.notes)?;
    lines_of(alloc, style, proxy, merged)
}

// Sorts the answers and the notes of every shard by version.
fn in_order(alloc: Global, each: Vec<Answered>) -> Result<InOrder, AllocError>
    requires kept { All AreKept each.items }
    ensures answers { IfOk result (λ sorted.
        map vec_items sorted.answers.items ≡ map sorted_answers each.items) }
    ensures notes { IfOk result (λ sorted.
        map vec_items sorted.notes.items ≡ map sorted_notes each.items) }
    ensures answers_count { IfOk result (λ sorted. vec_len sorted.answers ≡ vec_len each) }
    ensures notes_count { IfOk result (λ sorted. vec_len sorted.notes ≡ vec_len each) }
{
    let mut answers = Vec::with_capacity(alloc, each.len())?;
    let mut notes = Vec::with_capacity(alloc, each.len())?;
    for own in each {
        answers.push(answers_in_order(alloc, own.lines)?)?;
        notes.push(notes_in_order(alloc, own.notes)?)?;
    }
    Ok(InOrder { answers, notes })
}

// Returns the answers of lines that keep them, in the order of their versions.
fn answers_in_order(alloc: Global, lines: Vec<Line>) -> Result<Vec<Answer>, AllocError>
    requires kept { All IsKept lines.items }
    ensures answers { IfOk result (λ answers.
        answers.items ≡ answers_of (in_order_by version_of_line lines.items)) }
{
    let mut lines = lines;
    sort_by_version(alloc, &mut lines)?;
    kept_answers(alloc, lines)
}

fn notes_in_order(alloc: Global, notes: Vec<Note>) -> Result<Vec<Note>, AllocError>
    ensures notes { IfOk result (λ sorted.
        sorted.items ≡ in_order_by version_of_note notes.items) }
{
    let mut notes = notes;
    sort_by_version(alloc, &mut notes)?;
    Ok(notes)
}

// Returns the answers of lines that keep them.
fn kept_answers(alloc: Global, lines: Vec<Line>) -> Result<Vec<Answer>, AllocError>
    requires kept { All IsKept lines.items }
    ensures answers { IfOk result (λ answers. answers.items ≡ answers_of lines.items) }
{
    let mut answers = Vec::with_capacity(alloc, lines.len())?;
    for line in lines {
        answers.push(kept_answer(line))?;
    }
    Ok(answers)
}

// Returns the answer of a line that keeps it.
#[tactic(auto, using(crate::proofs::Keeping::kept_reply, crate::proofs::Keeping::kept_held, crate::proofs::Keeping::kept_never, crate::proofs::Keeping::kept_replied))]
fn kept_answer(line: Line) -> Answer
    requires kept { IsKept line }
    ensures answer { result ≡ answer_of line }
{
    let Line { counted, reply, .. } = line;
    if let Some(reply) = reply {
        return Answer::Reply(reply);
    }
    match counted.outcome {
        Outcome::Held => Answer::Held(counted.version),
        Outcome::Never => Answer::Never(counted.version),
        // The line of a reply keeps it.
        Outcome::Replied(_) => unreachable!(),
    }
}

// Makes the lines of these answers to the proxy.
fn lines_of(
    alloc: Global,
    style: Style,
    proxy: usize,
    answers: Vec<Answer>,
) -> Result<Vec<Line>, AllocError>
    ensures answers { IfOk result (λ lines. answers_of lines.items ≡ answers.items) }
    ensures lines { IfOk result (λ lines. All (IsLineOf style proxy) lines.items) }
{
    let mut lines = Vec::with_capacity(alloc, answers.len())?;
    for answer in answers {
        let Some(line) = Line::new(alloc, style, proxy, answer) else {
            return Err(AllocError);
        };
        lines.push(line)?;
    }
    Ok(lines)
}
