//! Answers that were taken from a core and aren't given yet.

ghost use Rattle.std.specs.Prelude.{◌≡◌, ◌≤◌, ◌<◌, ◌⊎◌, length, replicate, vec_len, None, Some};
ghost use Rattle.std.specs.Prelude.{IfOk, IfErr, option_to_list};
ghost use Rattle.std.specs.List.{sum_by};
ghost use Rattle.archcaraway_c.specs.Given.{Reports, WriteRefuses};

use crate::given::Given;
use crate::refusal::Refusal;
use crate::reply_frame::write_reply;
use keyspace::{Answer, Reply};
use std::alloc::{AllocError, Global};

/// Has no answer waiting for any of n proxies.
pub fn nothing_waits(alloc: Global, proxies: usize) -> Result<Vec<Option<Answer>>, AllocError>
    ensures none { IfOk result (λ waiting. waiting.items ≡ replicate proxies None) }
{
    let mut waiting = Vec::with_capacity(alloc, proxies)?;
    for _ in 0..proxies {
        waiting.push(None)?;
    }
    Ok(waiting)
}

/// Returns how many answers wait.
pub fn count_waiting(waiting: &[Option<Answer>]) -> usize
    ensures count { result ≡ sum_by (λ answer. length (option_to_list answer)) waiting.now }
    ensures few { result ≤ length waiting.now }
{
    waiting.iter().filter(|answer| answer.is_some()).count()
}

/// Writes the frame of a reply to the front of the buffer, and returns what is given.
pub fn write_answer(
    alloc: Global,
    answer: &Option<Answer>,
    buffer: &mut [u8],
) -> Result<Given, Refusal>
    ensures reported { IfOk result (λ given. Reports given buffer.new answer.now) }
    ensures refused { IfErr result
        (λ refusal. WriteRefuses answer.now (length buffer.old) refusal) }
{
    match answer {
        None => Ok(Given::Nothing),
        Some(Answer::Reply(reply)) => give_reply(alloc, reply, buffer),
        Some(Answer::Never(version)) => Ok(Given::Never(*version)),
        Some(Answer::Held(version)) => Ok(Given::Held(*version)),
    }
}

// Writes the frame of a reply to the front of the buffer, and returns what is given.
fn give_reply(alloc: Global, reply: &Reply, buffer: &mut [u8]) -> Result<Given, Refusal>
    ensures reported { IfOk result (λ given.
        Reports given buffer.new (Some (Answer.Reply reply.now))) }
    ensures refused { IfErr result
        (λ refusal. WriteRefuses (Some (Answer.Reply reply.now)) (length buffer.old) refusal) }
{
    match write_reply(alloc, reply, buffer) {
        Ok(count) => Ok(Given::Reply(reply.version, count)),
        Err(refusal) => Err(refusal),
    }
}
