//! The ranges that conflict most, put under the lines of a summary or into its object.

ghost use Rattle.std.specs.Prelude.{◌≡◌, IfOk, List, OnOk};
ghost use Rattle.keyspace.specs.Chain.{IsChain};
ghost use Rattle.keyspace.specs.Processed.{Processed};
ghost use Rattle.replay_hot_ranges.specs.HotRanges.{HasSeen};
ghost use Rattle.replay_output.specs.Notes.{with_member};
ghost use Rattle.replay_tasks.specs.Summarized.{IsTextOfTop, with_ranges};

use replay_hot_ranges::{HotRanges, hot_lines, hot_members};
use replay_summary::SummaryForm;
use std::alloc::{AllocError, Global};

/// A summary that lists ranges, in this form.
#[derive(Clone, Copy, Debug)]
pub struct TopRequest {
    pub form: SummaryForm,
    /// How many are listed, at most, of those read and of those written.
    pub most: usize,
}

/// Returns the text of the ranges that conflict most: lines, or members of an object.
pub fn text_of_top(
    alloc: Global,
    hot: &HotRanges,
    wanted: TopRequest,
) -> Result<Vec<u8>, AllocError>
    ensures text { IfOk result (λ made. (ps : List Processed) → HasSeen hot.now ps
        → IsChain hot.now.history.window ps → IsTextOfTop wanted.form wanted.most ps made.items) }
{
    let top = hot.top(wanted.most)?;
    match wanted.form {
        SummaryForm::Words => hot_lines(alloc, &top),
        SummaryForm::Json => hot_members(alloc, &top),
    }
}

/// Puts the text of ranges under the lines of a summary, or into its object. An empty text changes
/// nothing.
pub fn add_ranges(summary: &mut Vec<u8>, form: SummaryForm, ranges: &[u8]) -> Result<(), AllocError>
    ensures text { OnOk result
        (summary.new.items ≡ with_ranges form summary.old.items ranges.now) }
{
    match form {
        SummaryForm::Words => summary.extend_from_slice(ranges),
        SummaryForm::Json => add_members(summary, ranges),
    }
}

// Puts members into an object before its end, a brace and a newline.
fn add_members(object: &mut Vec<u8>, members: &[u8]) -> Result<(), AllocError>
    ensures text { OnOk result (object.new.items ≡ with_member object.old.items members.now) }
{
    if members.is_empty() || object.is_empty() {
        return Ok(());
    }
    let end = object.len().saturating_sub(2);
    object.truncate(end);
    object.push(b',')?;
    object.extend_from_slice(members)?;
    object.extend_from_slice(b"}\n")
}
