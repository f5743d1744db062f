//! What a command line asks to be done.

ghost use Rattle.std.specs.Prelude.{IfOk};
ghost use Rattle.replay_arguments.specs.Asked.{IsTaskOf};

use crate::arguments::asked::Asked;
use replay_summary::SummaryForm;
use std::alloc::{AllocError, Global};

/// What a command line asks to be done. At most one of these is requested.
#[derive(Debug, Drop)]
pub enum Task<'a> {
    /// Prints the answers.
    Print,
    /// Prints the answers, and with each what explains the rejections in its batch.
    Explain,
    /// Prints a summary in this form. Lists that many of the ranges that conflict most, from 1 to
    /// [`MAX_TOP`](crate::MAX_TOP), if a number is given.
    Summarize(SummaryForm, Option<usize>),
    /// Prints the answers as they come. Records them in the files of these names: one per file of
    /// batches, or none.
    Stream(Vec<&'a str>),
    /// Compares the answers with the replies in the files of these names, one per file of batches.
    Check(Vec<&'a str>),
}

/// Returns the task that the arguments ask for.
pub fn task_of<'a>(alloc: Global, asked: &Asked<'_, 'a>) -> Result<Task<'a>, AllocError>
    ensures task { IfOk result (IsTaskOf asked.now) }
{
    if asked.printing.style.form.is_kept() {
        return Ok(Task::Check(Vec::from_slice(alloc, asked.names.replies)?));
    }
    if asked.printing.is_streamed {
        return Ok(Task::Stream(Vec::from_slice(alloc, asked.names.records)?));
    }
    match asked.printing.summary {
        Some(form) => Ok(Task::Summarize(form, asked.details.top)),
        None if asked.printing.explains => Ok(Task::Explain),
        None => Ok(Task::Print),
    }
}
