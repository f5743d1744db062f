//! Appends the text of a field to a text.

ghost use Rattle.std.specs.Prelude.{◌≡◌, ◌++◌, ◌≤◌, OnOk, length, map};
ghost use Rattle.std.specs.Int.{w64};
ghost use Rattle.std.specs.Int.RustNames.{FitsSigned};
ghost use Rattle.std.specs.List.{All, flat_map};
ghost use Rattle.byteorder.specs.Endian.{big_bytes};
ghost use Rattle.keys.specs.declared.key.TheConstants.{MAX_KEY_LENGTH};
ghost use Rattle.keyspace.specs.Places.{ArePlaces};
ghost use Rattle.wire.specs.Fields.{range_fields, txn_fields, entry_fields};
ghost use Rattle.wire.specs.Spelling.{signed_text, key_text, ends_text, formed_text, range_text};
ghost use Rattle.wire.specs.Spelling.{marks_text, txn_text, verdict_text, places_text, entry_text};

use crate::version::WireVersion;
use keys::is_single_key;
use keyspace::{Entry, RangeRef, RangesRef, TxnRef, Txns, Verdict};
use std::alloc::AllocError;

/// Appends a number of two bytes.
pub fn put_u16(out: &mut Vec<u8>, number: u16) -> Result<(), AllocError>
    ensures text { OnOk result (out.new.items ≡ out.old.items ++ big_bytes 2 number) }
{
    out.extend_from_slice(&number.to_be_bytes())
}

/// Appends a number of four bytes.
pub fn put_u32(out: &mut Vec<u8>, number: u32) -> Result<(), AllocError>
    ensures text { OnOk result (out.new.items ≡ out.old.items ++ big_bytes 4 number) }
{
    out.extend_from_slice(&number.to_be_bytes())
}

/// Appends a version or a snapshot.
pub fn put_i64(out: &mut Vec<u8>, number: i64) -> Result<(), AllocError>
    ensures text { OnOk result (out.new.items ≡ out.old.items ++ signed_text number) }
    ensures fits { FitsSigned w64 number }
{
    out.extend_from_slice(&number.cast_unsigned().to_be_bytes())
}

fn put_marks(out: &mut Vec<u8>, marked: bool) -> Result<(), AllocError>
    ensures text { OnOk result (out.new.items ≡ out.old.items ++ marks_text marked) }
{
    if marked {
        out.push(1)?;
    } else {
        out.push(0)?;
    }
    Ok(())
}

fn put_key(out: &mut Vec<u8>, key: &[u8]) -> Result<(), AllocError>
    requires short { length key.now ≤ MAX_KEY_LENGTH }
    ensures text { OnOk result (out.new.items ≡ out.old.items ++ key_text key.now) }
{
    put_u16(out, key.len() as u16)?;
    out.extend_from_slice(key)
}

fn put_ends(out: &mut Vec<u8>, range: &RangeRef<'_>) -> Result<(), AllocError>
    ensures text { OnOk result (out.new.items
        ≡ out.old.items ++ ends_text (range_fields range.now)) }
{
    put_key(out, range.begin())?;
    put_key(out, range.end())
}

#[tactic(auto, unfolding(crate::specs::Spelling::formed_text))]
fn put_formed(out: &mut Vec<u8>, range: &RangeRef<'_>) -> Result<(), AllocError>
    ensures text { OnOk result (out.new.items
        ≡ out.old.items ++ formed_text (range_fields range.now)) }
{
    if is_single_key(range.begin(), range.end()) {
        out.push(1)?;
        put_key(out, range.begin())
    } else {
        out.push(0)?;
        put_ends(out, range)
    }
}

fn put_range(
    out: &mut Vec<u8>,
    version: WireVersion,
    range: &RangeRef<'_>,
) -> Result<(), AllocError>
    ensures text { OnOk result
        (out.new.items ≡ out.old.items ++ range_text version (range_fields range.now)) }
{
    match version {
        WireVersion::One => put_ends(out, range),
        WireVersion::Two => put_formed(out, range),
    }
}

fn put_ranges(
    out: &mut Vec<u8>,
    version: WireVersion,
    ranges: &RangesRef<'_>,
) -> Result<(), AllocError>
    ensures text { OnOk result (out.new.items ≡
        out.old.items ++ flat_map (range_text version) (map range_fields ranges.now)) }
{
    for index in 0..ranges.len() {
        put_range(out, version, &ranges.get(index))?;
    }
    Ok(())
}

#[tactic(auto, unfolding(crate::specs::Spelling::txn_text))]
fn put_txn(out: &mut Vec<u8>, version: WireVersion, txn: &TxnRef<'_>) -> Result<(), AllocError>
    ensures text { OnOk result (out.new.items
        ≡ out.old.items ++ txn_text version (txn_fields txn.now)) }
    ensures fits { FitsSigned w64 txn.now.snapshot }
{
    put_i64(out, txn.snapshot)?;
    put_marks(out, txn.marked)?;
    put_u16(out, txn.reads.len() as u16)?;
    put_u16(out, txn.writes.len() as u16)?;
    put_ranges(out, version, &txn.reads)?;
    put_ranges(out, version, &txn.writes)?;
    Ok(())
}

/// Appends the transactions of a batch.
pub fn put_txns(out: &mut Vec<u8>, version: WireVersion, txns: &Txns) -> Result<(), AllocError>
    ensures text { OnOk result (out.new.items ≡
        out.old.items ++ flat_map (txn_text version) (map txn_fields txns.now)) }
    ensures fit { OnOk result (All (λ txn. FitsSigned w64 txn.snapshot) txns.now) }
{
    for index in 0..txns.len() {
        put_txn(out, version, &txns.txn(index))?;
    }
    Ok(())
}

fn put_places(out: &mut Vec<u8>, places: &[u16]) -> Result<(), AllocError>
    ensures text { OnOk result (out.new.items ≡ out.old.items ++ places_text places.now) }
{
    for place in places {
        put_u16(out, *place)?;
    }
    Ok(())
}

fn put_verdict(out: &mut Vec<u8>, verdict: Verdict) -> Result<(), AllocError>
    ensures text { OnOk result (out.new.items ≡ out.old.items ++ verdict_text verdict) }
{
    match verdict {
        Verdict::Conflict => out.push(0)?,
        Verdict::TooOld => out.push(1)?,
        Verdict::Committed => out.push(2)?,
    }
    Ok(())
}

#[tactic(auto, using(crate::proofs::PlaceLists::few_places), unfolding(crate::specs::Spelling::entry_text))]
fn put_entry(out: &mut Vec<u8>, entry: &Entry) -> Result<(), AllocError>
    ensures text { OnOk result (out.new.items
        ≡ out.old.items ++ entry_text (entry_fields entry.now)) }
    ensures places { ArePlaces entry.now.places }
{
    let places = entry.places.as_slice();
    put_verdict(out, entry.verdict)?;
    put_u16(out, places.len() as u16)?;
    put_places(out, places)?;
    Ok(())
}

/// Appends the entries of a reply.
pub fn put_entries(out: &mut Vec<u8>, entries: &[Entry]) -> Result<(), AllocError>
    ensures text { OnOk result (out.new.items ≡
        out.old.items ++ flat_map entry_text (map entry_fields entries.now)) }
    ensures places { OnOk result (All (λ entry. ArePlaces entry.places) entries.now) }
{
    for entry in entries {
        put_entry(out, entry)?;
    }
    Ok(())
}
