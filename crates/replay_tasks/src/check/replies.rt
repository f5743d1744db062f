//! The replies that another resolver gave, read from their files.

ghost use Rattle.std.specs.Prelude.{◌≡◌, ◌↔◌, ◌<◌, ◌≤◌, ◌⊎◌, IfErr, IfOk, IsErr, OnErr, OnOk};
ghost use Rattle.std.specs.Prelude.{length, map, vec_items, vec_len};
ghost use Rattle.std.specs.Io.KnownBytes.{Appends};
ghost use Rattle.std.specs.List.{AllZip};
ghost use Rattle.replay_arguments.specs.Opening.{contents_each};
ghost use Rattle.replay_tasks.specs.Replies.{HasReplyFault, IsCauseOf, IsFaultIn, IsReplyFile};
ghost use Rattle.replay_tasks.specs.Replies.{replies_line};

use keyspace::Reply;
use replay_arguments::{Extent, Files, OpeningError, begin_replies, open_files};
use replay_output::{StartError, Status, fault_text, print_start_error};
use std::alloc::Global;
use wire::{Failed, Sink, Source, WireError, read_reply, write_all};

/// Why the replies were not read.
#[derive(Clone, Copy, Debug, PartialEq, Eq)]
pub enum RepliesError {
    /// The file of replies to this proxy can't be opened.
    CannotOpen(usize),
    /// The file of replies to this proxy has this fault.
    Fault(usize, WireError),
    /// Memory was refused.
    Memory,
}

/// Reads the files of these names, of which each has the replies to the proxy at its place. All are
/// opened first.
pub fn read_replies<F: Files>(
    alloc: Global,
    files: &F,
    names: &[&str],
) -> Result<Vec<Vec<Reply>>, RepliesError>
    ensures read { IfOk result (λ recorded. AllZip IsReplyFile
        (contents_each (F.contents files.now) (map (λ name. name.now) names.now))
        (map vec_items recorded.items)) }
    ensures count { IfOk result (λ recorded. vec_len recorded ≡ length names.now) }
    ensures refused { IfErr result
        (IsCauseOf (F.has_opened files.now) (F.cannot_open files.now) (F.contents files.now)
        (map (λ name. name.now) names.now)) }
{
    match open_files(alloc, files, names, Extent::Complete) {
        Ok(readers) => read_all(alloc, readers),
        Err(OpeningError::CannotOpen(proxy)) => Err(RepliesError::CannotOpen(proxy)),
        Err(OpeningError::Memory) => Err(RepliesError::Memory),
    }
}

// Reads the replies of each reader.
fn read_all<S: Source + Drop>(
    alloc: Global,
    readers: Vec<S>,
) -> Result<Vec<Vec<Reply>>, RepliesError>
    ensures read { IfOk result (λ recorded. AllZip IsReplyFile (map S.remaining readers.items)
        (map vec_items recorded.items)) }
    ensures count { IfOk result (λ recorded. vec_len recorded ≡ vec_len readers) }
    ensures fault { IfErr result (IsFaultIn (map S.remaining readers.items)) }
{
    let mut recorded = Vec::new(alloc);
    for reader in readers {
        let replies = match read_file(alloc, reader) {
            Ok(replies) => replies,
            Err(fault) => return Err(RepliesError::Fault(recorded.len(), fault)),
        };
        recorded.push(replies).map_err(|_| RepliesError::Memory)?;
    }
    Ok(recorded)
}

// Reads replies to the end of the input, or to its fault.
fn read_file<S: Source + Drop>(alloc: Global, reader: S) -> Result<Vec<Reply>, WireError>
    ensures read { IfOk result (λ replies. IsReplyFile (S.remaining reader) replies.items) }
    ensures fault { IfErr result (HasReplyFault (S.remaining reader)) }
{
    let mut reader = reader;
    let mut replies = Vec::new(alloc);
    for _ in 0..u64::MAX {
        let Some(reply) = read_reply(alloc, &mut reader)? else {
            return Ok(replies);
        };
        replies.push(reply)?;
    }
    // One reply more couldn't be counted. No input is so long.
    Err(WireError::Memory)
}

/// Prints the line of the cause, and returns how the program ends. A failed write changes nothing.
/// Takes no memory.
pub fn fail_to_read_replies<W: Sink>(error: &mut W, cause: RepliesError) -> Status
    ensures status { result ≡ Status.Failed }
    ensures line { (W.failures error.old < W.failures error.new)
        ⊎ Appends (W.given error.old) (W.given error.new) (replies_line cause) }
{
    let _ = print_replies_error(error, cause);
    Status::Failed
}

fn print_replies_error<W: Sink>(error: &mut W, cause: RepliesError) -> Result<(), Failed>
    ensures text { OnOk result (Appends (W.given error.old) (W.given error.new)
        (replies_line cause)) }
    ensures failed { IsErr result ↔ (W.failures error.old < W.failures error.new) }
    ensures least_failures { W.failures error.old ≤ W.failures error.new }
{
    match cause {
        RepliesError::CannotOpen(proxy) => print_unopened(error, proxy),
        RepliesError::Fault(proxy, fault) => print_fault(error, proxy, fault),
        RepliesError::Memory => print_start_error(error, StartError::Memory),
    }
}

fn print_unopened<W: Sink>(error: &mut W, proxy: usize) -> Result<(), Failed>
    ensures text { OnOk result (Appends (W.given error.old) (W.given error.new)
        (replies_line (RepliesError.CannotOpen proxy))) }
    ensures ok { OnOk result (W.failures error.new ≡ W.failures error.old) }
    ensures failed { OnErr result (W.failures error.old < W.failures error.new) }
{
    begin_replies(error, proxy)?;
    write_all(error, b": cannot open\n")
}

fn print_fault<W: Sink>(error: &mut W, proxy: usize, fault: WireError) -> Result<(), Failed>
    ensures text { OnOk result (Appends (W.given error.old) (W.given error.new)
        (replies_line (RepliesError.Fault proxy fault))) }
    ensures ok { OnOk result (W.failures error.new ≡ W.failures error.old) }
    ensures failed { OnErr result (W.failures error.old < W.failures error.new) }
{
    begin_replies(error, proxy)?;
    write_all(error, b": wire ")?;
    write_all(error, fault_text(fault).as_bytes())?;
    write_all(error, b"\n")
}
