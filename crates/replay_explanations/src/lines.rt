//! The lines of rejected transactions, appended to a text.

ghost use Rattle.std.specs.Prelude.{◌≡◌, ◌++◌, OnOk, Some, codes, decimal};
ghost use Rattle.std.specs.Fmt.{signed_decimal};
ghost use Rattle.replay_explanations.specs.Lines.{conflict_line, further_text, origin};
ghost use Rattle.replay_explanations.specs.Lines.{range_form, too_old_line, write_form};

use crate::forms::{put_number, put_range, put_version};
use explanations::{Explanation, WrittenRef};
use keys::RangeRef;
use std::alloc::AllocError;

// Appends the line of a read range in conflict, by its index and that of its transaction in the
// batch of this version.
pub(crate) fn put_conflict_line(
    out: &mut Vec<u8>,
    version: i64,
    txn: usize,
    read: usize,
    range: &RangeRef<'_>,
    explanation: &Explanation<'_>,
) -> Result<(), AllocError>
    ensures text { OnOk result (out.new.items ≡ out.old.items
        ++ conflict_line version txn read range.now (Some explanation.now.newest)
        explanation.now.further) }
{
    put_begin(out, txn)?;
    put_read(out, read, range)?;
    out.extend_from_slice(b" conflicts with write ")?;
    put_write(out, version, &explanation.newest)?;
    put_further(out, explanation.further)?;
    Ok(out.push(b'\n')?)
}

// Appends the line of a transaction that is too old. Versions below `oldest` can't be read.
pub(crate) fn put_too_old_line(
    out: &mut Vec<u8>,
    txn: usize,
    snapshot: i64,
    oldest: i64,
) -> Result<(), AllocError>
    ensures text { OnOk result (out.new.items ≡ out.old.items
        ++ too_old_line txn snapshot oldest) }
{
    put_begin(out, txn)?;
    out.extend_from_slice(b" too old: snapshot ")?;
    put_version(out, snapshot)?;
    out.extend_from_slice(b", oldest readable version ")?;
    put_version(out, oldest)?;
    Ok(out.push(b'\n')?)
}

// Appends the begin of a line: the index of its transaction.
fn put_begin(out: &mut Vec<u8>, txn: usize) -> Result<(), AllocError>
    ensures text { OnOk result (out.new.items ≡ out.old.items ++ codes "  txn " ++ decimal txn) }
{
    out.extend_from_slice(b"  txn ")?;
    put_number(out, txn)
}

fn put_read(out: &mut Vec<u8>, read: usize, range: &RangeRef<'_>) -> Result<(), AllocError>
    ensures text { OnOk result (out.new.items ≡ out.old.items
        ++ codes " read " ++ decimal read ++ codes " " ++ range_form range.now) }
{
    out.extend_from_slice(b" read ")?;
    put_number(out, read)?;
    out.push(b' ')?;
    put_range(out, range)
}

fn put_write(out: &mut Vec<u8>, version: i64, write: &WrittenRef<'_>) -> Result<(), AllocError>
    ensures text { OnOk result (out.new.items ≡ out.old.items ++ write_form version write.now) }
{
    put_range(out, &write.range)?;
    put_source(out, write)?;
    put_origin(out, version, write)
}

// Appends which transaction wrote it.
fn put_source(out: &mut Vec<u8>, write: &WrittenRef<'_>) -> Result<(), AllocError>
    ensures text { OnOk result (out.new.items ≡ out.old.items
        ++ (codes " of proxy " ++ decimal write.now.proxy
        ++ codes ", version " ++ signed_decimal write.now.version
        ++ codes ", txn " ++ decimal write.now.txn)) }
{
    out.extend_from_slice(b" of proxy ")?;
    put_number(out, write.proxy)?;
    out.extend_from_slice(b", version ")?;
    put_version(out, write.version)?;
    out.extend_from_slice(b", txn ")?;
    put_number(out, write.txn)
}

fn put_origin(out: &mut Vec<u8>, version: i64, write: &WrittenRef<'_>) -> Result<(), AllocError>
    ensures text { OnOk result (out.new.items ≡ out.old.items ++ origin version write.now) }
{
    if write.version == version {
        out.extend_from_slice(b" (same batch)")
    } else {
        out.extend_from_slice(b" (history)")
    }
}

fn put_further(out: &mut Vec<u8>, further: usize) -> Result<(), AllocError>
    ensures text { OnOk result (out.new.items ≡ out.old.items ++ further_text further) }
{
    if further == 0 {
        return Ok(());
    }
    out.extend_from_slice(b", and ")?;
    put_number(out, further)?;
    out.extend_from_slice(b" more")
}
