//! The length of a value's text in bytes, known before any of it is written.

ghost use Rattle.std.specs.Prelude.{◌≡◌, ◌≤◌, ◌*◌, length, map};
ghost use Rattle.std.specs.List.{flat_map};
ghost use Rattle.keys.specs.declared.key.TheConstants.{MAX_KEY_LENGTH};
ghost use Rattle.wire.specs.Fields.{range_fields, txn_fields, batch_fields, entry_fields};
ghost use Rattle.wire.specs.Fields.{reply_fields};
ghost use Rattle.wire.specs.Spelling.{key_text, ends_text, range_text, txn_text, batch_body};
ghost use Rattle.wire.specs.Spelling.{entry_text, reply_body};

use crate::version::WireVersion;
use keys::is_single_key;
use keyspace::{Batch, Entry, MAX_RANGES, MAX_TXNS, RangeRef, RangesRef, Reply, TxnRef, Txns};

fn key_length(key: &[u8]) -> usize
    requires short { length key.now ≤ MAX_KEY_LENGTH }
    ensures exact { result ≡ length (key_text key.now) }
    ensures bound { result ≤ 10003 }
{
    2 + key.len()
}

fn ends_length(range: &RangeRef<'_>) -> usize
    ensures exact { result ≡ length (ends_text (range_fields range.now)) }
    ensures bound { result ≤ 20006 }
{
    key_length(range.begin()) + key_length(range.end())
}

#[tactic(auto, unfolding(crate::specs::Spelling::formed_text))]
fn range_length(version: WireVersion, range: &RangeRef<'_>) -> usize
    ensures exact { result ≡ length (range_text version (range_fields range.now)) }
    ensures bound { result ≤ 20007 }
{
    match version {
        WireVersion::One => ends_length(range),
        WireVersion::Two => {
            if is_single_key(range.begin(), range.end()) {
                1 + key_length(range.begin())
            } else {
                1 + ends_length(range)
            }
        }
    }
}

fn ranges_length(version: WireVersion, ranges: &RangesRef<'_>) -> usize
    requires few { length ranges.now ≤ MAX_RANGES }
    ensures exact { result ≡ length (flat_map (range_text version) (map range_fields ranges.now)) }
    ensures bound { result ≤ 20007 * MAX_RANGES }
{
    let mut total = 0;
    for index in 0..ranges.len() {
        total += range_length(version, &ranges.get(index));
    }
    total
}

#[tactic(auto, unfolding(crate::specs::Spelling::txn_text))]
fn txn_length(version: WireVersion, txn: &TxnRef<'_>) -> usize
    ensures exact { result ≡ length (txn_text version (txn_fields txn.now)) }
    ensures bound { result ≤ 40974349 }
{
    let reads = ranges_length(version, &txn.reads);
    let writes = ranges_length(version, &txn.writes);
    13 + reads + writes
}

fn txns_length(version: WireVersion, txns: &Txns) -> usize
    requires few { length txns.now ≤ MAX_TXNS }
    ensures exact { result ≡ length (flat_map (txn_text version) (map txn_fields txns.now)) }
    ensures bound { result ≤ 40974349 * MAX_TXNS }
{
    let mut total = 0;
    for index in 0..txns.len() {
        total += txn_length(version, &txns.txn(index));
    }
    total
}

/// Returns the length of the body of a batch, in bytes.
#[tactic(auto, unfolding(crate::specs::Spelling::batch_body))]
pub fn batch_length(version: WireVersion, batch: &Batch) -> usize
    ensures exact { result ≡ length (batch_body version (batch_fields batch.now)) }
{
    27 + txns_length(version, &batch.txns)
}

#[tactic(auto, using(crate::proofs::PlaceLists::few_places, crate::proofs::PlaceLists::places_length), unfolding(crate::specs::Spelling::entry_text))]
fn entry_length(entry: &Entry) -> usize
    ensures exact { result ≡ length (entry_text (entry_fields entry.now)) }
    ensures bound { result ≤ 2051 }
{
    3 + 2 * entry.places.as_slice().len()
}

fn entries_length(entries: &[Entry]) -> usize
    requires few { length entries.now ≤ MAX_TXNS }
    ensures exact { result ≡ length (flat_map entry_text (map entry_fields entries.now)) }
    ensures bound { result ≤ 2051 * MAX_TXNS }
{
    let mut total = 0;
    for entry in entries {
        total += entry_length(entry);
    }
    total
}

/// Returns the length of the body of a reply, in bytes.
#[tactic(auto, unfolding(crate::specs::Spelling::reply_body))]
pub fn reply_length(reply: &Reply) -> usize
    ensures exact { result ≡ length (reply_body (reply_fields reply.now)) }
{
    11 + entries_length(reply.entries.as_slice())
}
