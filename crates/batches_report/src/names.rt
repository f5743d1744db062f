//! Names of ranges, as a report shows them.

ghost use Rattle.std.specs.Prelude.{◌≡◌, ◌∷◌, ◌++◌, [], List, ℕ, IfOk, OnOk, map, slice_get};
ghost use Rattle.std.specs.Prelude.{string_bytes};
ghost use Rattle.batches_report.specs.Names.{AreEachOnce, is_among, name_if_some, name_of};
ghost use Rattle.batches_report.specs.Names.{names_at};

use crate::error::ReportError;
use json_lines::put_quoted_key;
use keys::is_single_key;
use keyspace::{RangeRef, TxnRef};
use std::alloc::{AllocError, Global};

/// Returns the names of the read ranges at the places, each once. A place without a range has none.
pub fn names_of(alloc: Global, txn: &TxnRef<'_>, places: &[u16]) -> Result<Vec<String>, ReportError>
    ensures once { IfOk result (λ names.
        AreEachOnce (names_at txn.now places.now) (map string_bytes names.items)) }
{
    let mut names = Vec::new(alloc);
    for place in places {
        put_name_at(alloc, &mut names, txn, usize::from(*place))?;
    }
    Ok(names)
}

// Appends the name of the read range at a place, unless it is among the names.
fn put_name_at(
    alloc: Global,
    names: &mut Vec<String>,
    txn: &TxnRef<'_>,
    place: usize,
) -> Result<(), ReportError>
    ensures put { OnOk result ((all : List (List ℕ))
        → AreEachOnce all (map string_bytes names.old.items)
        → AreEachOnce (all ++ name_if_some (slice_get txn.now.reads place))
        (map string_bytes names.new.items)) }
{
    if place < txn.reads.len() {
        let name = name_of(alloc, &txn.reads.get(place))?;
        put_once(names, name)?;
    }
    Ok(())
}

// Appends a name, unless it is among the names.
fn put_once(names: &mut Vec<String>, name: String) -> Result<(), AllocError>
    ensures put { OnOk result ((all : List (List ℕ))
        → AreEachOnce all (map string_bytes names.old.items)
        → AreEachOnce (all ++ string_bytes name ∷ []) (map string_bytes names.new.items)) }
{
    if is_among(names, &name) {
        return Ok(());
    }
    names.push(name)?;
    Ok(())
}

fn is_among(names: &[String], name: &str) -> bool
    ensures exact { result ≡ is_among (map string_bytes names.now) name.now }
{
    for other in names {
        if name == other.as_str() {
            return true;
        }
    }
    false
}

// Returns the name of a range: its one key, or its two keys.
fn name_of(alloc: Global, range: &RangeRef<'_>) -> Result<String, ReportError>
    ensures name { IfOk result (λ name. string_bytes name ≡ name_of range.now) }
{
    let mut name = Vec::new(alloc);
    put_quoted_key(&mut name, range.begin())?;
    if !is_single_key(range.begin(), range.end()) {
        name.extend_from_slice(b" .. ")?;
        put_quoted_key(&mut name, range.end())?;
    }
    match String::from_utf8(name) {
        Ok(name) => Ok(name),
        // The printed form of a key is ASCII.
        Err(_) => Err(ReportError::Memory),
    }
}
