//! The objects of a batch, as members of a JSON array. Each has a comma before it.

ghost use Rattle.std.specs.Prelude.{◌≡◌, ◌++◌, [], IfOk, OnOk, Some, codes, decimal};
ghost use Rattle.std.specs.Fmt.{signed_decimal};
ghost use Rattle.replay_explanations.specs.Json.{conflict_json, member_json, too_old_json};
ghost use Rattle.replay_explanations.specs.Json.{origin_json, source_json, write_json};

use crate::forms::{put_number, put_range_json, put_version};
use explanations::{Explanation, WrittenRef};
use keys::RangeRef;
use std::alloc::{AllocError, Global};

// Appends the object of a read range in conflict, by its index and that of its transaction in the
// batch of this version.
pub(crate) fn put_conflict_json(
    out: &mut Vec<u8>,
    version: i64,
    txn: usize,
    read: usize,
    range: &RangeRef<'_>,
    explanation: &Explanation<'_>,
) -> Result<(), AllocError>
    ensures text { OnOk result (out.new.items ≡ out.old.items
        ++ conflict_json version txn read range.now (Some explanation.now.newest)
        explanation.now.further) }
{
    put_begin(out, txn)?;
    out.extend_from_slice(b",\"read\":")?;
    put_number(out, read)?;
    out.extend_from_slice(b",\"range\":")?;
    put_range_json(out, range)?;
    put_write(out, &explanation.newest)?;
    out.extend_from_slice(b",\"further\":")?;
    put_number(out, explanation.further)?;
    put_origin(out, version, &explanation.newest)
}

// Appends the object of a transaction that is too old. Versions below `oldest` can't be read.
pub(crate) fn put_too_old_json(
    out: &mut Vec<u8>,
    txn: usize,
    snapshot: i64,
    oldest: i64,
) -> Result<(), AllocError>
    ensures text { OnOk result (out.new.items ≡ out.old.items
        ++ too_old_json txn snapshot oldest) }
{
    put_begin(out, txn)?;
    out.extend_from_slice(b",\"too_old\":{\"snapshot\":")?;
    put_version(out, snapshot)?;
    out.extend_from_slice(b",\"oldest\":")?;
    put_version(out, oldest)?;
    out.extend_from_slice(b"}}")
}

// Returns the member with these objects, without the comma before the first. It is empty if there
// are none.
pub(crate) fn member_of(alloc: Global, objects: &[u8]) -> Result<Vec<u8>, AllocError>
    ensures text { IfOk result (λ text. text.items ≡ member_json objects.now) }
{
    let mut member = Vec::new(alloc);
    if let Some((_comma, rest)) = objects.split_first() {
        member.extend_from_slice(b"\"explanations\":[")?;
        member.extend_from_slice(rest)?;
        member.push(b']')?;
    }
    Ok(member)
}

// Appends the begin of an object: the index of its transaction.
fn put_begin(out: &mut Vec<u8>, txn: usize) -> Result<(), AllocError>
    ensures text { OnOk result (out.new.items
        ≡ out.old.items ++ codes ",{\"txn\":" ++ decimal txn) }
{
    out.extend_from_slice(b",{\"txn\":")?;
    put_number(out, txn)
}

// Appends the write, with the transaction that wrote it.
fn put_write(out: &mut Vec<u8>, write: &WrittenRef<'_>) -> Result<(), AllocError>
    ensures text { OnOk result (out.new.items ≡ out.old.items ++ write_json write.now) }
{
    out.extend_from_slice(b",\"write\":{\"range\":")?;
    put_range_json(out, &write.range)?;
    put_source(out, write)?;
    Ok(out.push(b'}')?)
}

// Appends which transaction wrote it.
fn put_source(out: &mut Vec<u8>, write: &WrittenRef<'_>) -> Result<(), AllocError>
    ensures text { OnOk result (out.new.items ≡ out.old.items ++ source_json write.now) }
{
    out.extend_from_slice(b",\"proxy\":")?;
    put_number(out, write.proxy)?;
    out.extend_from_slice(b",\"version\":")?;
    put_version(out, write.version)?;
    out.extend_from_slice(b",\"txn\":")?;
    put_number(out, write.txn)
}

// Appends whether the write is one of the same batch, and the end of the object.
fn put_origin(out: &mut Vec<u8>, version: i64, write: &WrittenRef<'_>) -> Result<(), AllocError>
    ensures text { OnOk result (out.new.items ≡ out.old.items ++ origin_json version write.now) }
{
    if write.version == version {
        out.extend_from_slice(b",\"same_batch\":true}")
    } else {
        out.extend_from_slice(b",\"same_batch\":false}")
    }
}
