//! Batches and texts, made by a second try where the first is refused memory.

use keyspace::{Answer, Batch, Reply};
use std::alloc::Global;
use test_values::{Unmade, batch, show_answer, show_reply};

/// Reads a batch from its text.
pub fn batch_at_last(alloc: Global, text: &str) -> Result<Batch, Unmade> {
    match batch(alloc, text) {
        Err(Unmade::Memory) => batch(alloc, text),
        made => made,
    }
}

fn answer_at_last(alloc: Global, answer: &Answer) -> Result<String, Unmade> {
    match show_answer(alloc, answer) {
        Err(Unmade::Memory) => show_answer(alloc, answer),
        made => made,
    }
}

fn reply_at_last(alloc: Global, reply: &Reply) -> Result<String, Unmade> {
    match show_reply(alloc, reply) {
        Err(Unmade::Memory) => show_reply(alloc, reply),
        made => made,
    }
}

/// Returns whether this is the text of the answer.
pub fn is_answer(alloc: Global, answer: &Answer, text: &str) -> Result<bool, Unmade> {
    Ok(answer_at_last(alloc, answer)?.as_str() == text)
}

/// Returns whether this is the text of the answer, or `None` if there is none.
pub fn is_given(
    alloc: Global,
    answer: Option<&Answer>,
    text: &str,
) -> Result<Option<bool>, Unmade> {
    match answer {
        Some(answer) => Ok(Some(is_answer(alloc, answer, text)?)),
        None => Ok(None),
    }
}

/// Returns whether this is the text of the reply.
pub fn is_reply(alloc: Global, reply: &Reply, text: &str) -> Result<bool, Unmade> {
    Ok(reply_at_last(alloc, reply)?.as_str() == text)
}
