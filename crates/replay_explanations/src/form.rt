//! The form of explanations.

ghost use Rattle.std.specs.Prelude.{◌≡◌, ◌++◌, OnOk, Some};
ghost use Rattle.replay_explanations.specs.Lines.{conflict_text, too_old_text};

use crate::json::{put_conflict_json, put_too_old_json};
use crate::lines::{put_conflict_line, put_too_old_line};
use explanations::Explanation;
use keys::RangeRef;
use std::alloc::AllocError;

/// The form of explanations.
#[derive(Clone, Copy, Debug, PartialEq, Eq)]
pub enum ExplanationForm {
    /// One line of words per read range in conflict, and per transaction that is too old.
    Words,
    /// One member of a JSON object, `"explanations"`: an array of objects instead of lines.
    Json,
}

// Appends the explanation of a read range in conflict, by its index and that of its transaction in
// the batch of this version.
pub(crate) fn put_conflict(
    out: &mut Vec<u8>,
    form: ExplanationForm,
    version: i64,
    txn: usize,
    read: usize,
    range: &RangeRef<'_>,
    explanation: &Explanation<'_>,
) -> Result<(), AllocError>
    ensures text { OnOk result (out.new.items ≡ out.old.items
        ++ conflict_text form version txn read range.now (Some explanation.now.newest)
        explanation.now.further) }
{
    match form {
        ExplanationForm::Words => put_conflict_line(out, version, txn, read, range, explanation),
        ExplanationForm::Json => put_conflict_json(out, version, txn, read, range, explanation),
    }
}

// Appends the explanation of a transaction that is too old. Versions below `oldest` can't be read.
pub(crate) fn put_too_old(
    out: &mut Vec<u8>,
    form: ExplanationForm,
    txn: usize,
    snapshot: i64,
    oldest: i64,
) -> Result<(), AllocError>
    ensures text { OnOk result (out.new.items ≡ out.old.items
        ++ too_old_text form txn snapshot oldest) }
{
    match form {
        ExplanationForm::Words => put_too_old_line(out, txn, snapshot, oldest),
        ExplanationForm::Json => put_too_old_json(out, txn, snapshot, oldest),
    }
}
