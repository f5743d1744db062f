//! The tables of a batch and of a reply.

use json_lines::put_key_form;
use keys::is_single_key;
use keyspace::{Batch, RangeRef, RangesRef, Reply, TxnRef, Verdict};
use std::alloc::{AllocError, Global};
use std::fmt::Write as _;

// The most characters of a key that are shown where keys are cut.
const MAX_WIDTH: usize = 32;

/// Returns the table of a batch: a line of its versions, and a line for each range, after that of
/// its transaction.
pub fn batch_table(alloc: Global, batch: &Batch, full: bool) -> Result<String, AllocError> {
    let mut table = String::new(alloc);
    let (previous, version, received) = (batch.previous, batch.version, batch.received);
    let count = batch.txns.len();
    writeln!(
        table,
        "batch {previous} > {version}, received {received}, transactions {count}"
    )?;
    for index in 0..count {
        put_txn(alloc, &mut table, index, &batch.txns.txn(index), full)?;
    }
    Ok(table)
}

fn put_txn(
    alloc: Global,
    table: &mut String,
    index: usize,
    txn: &TxnRef<'_>,
    full: bool,
) -> Result<(), AllocError> {
    let snapshot = txn.snapshot;
    let report = if txn.marked { ", report" } else { "" };
    writeln!(table, "{index:>6}  snapshot {snapshot}{report}")?;
    put_ranges(alloc, table, "read ", &txn.reads, full)?;
    put_ranges(alloc, table, "write", &txn.writes, full)
}

fn put_ranges(
    alloc: Global,
    table: &mut String,
    what: &str,
    ranges: &RangesRef<'_>,
    full: bool,
) -> Result<(), AllocError> {
    for index in 0..ranges.len() {
        put_range(alloc, table, what, &ranges.get(index), full)?;
    }
    Ok(())
}

fn put_range(
    alloc: Global,
    table: &mut String,
    what: &str,
    range: &RangeRef<'_>,
    full: bool,
) -> Result<(), AllocError> {
    let begin = shown(alloc, range.begin(), full)?;
    if is_single_key(range.begin(), range.end()) {
        writeln!(table, "        {what}  {begin}")
    } else {
        let end = shown(alloc, range.end(), full)?;
        writeln!(table, "        {what}  {begin} .. {end}")
    }
}

// Returns the printed form of a key, shortened if it is wide and not wanted in full.
fn shown(alloc: Global, key: &[u8], full: bool) -> Result<String, AllocError> {
    let mut form = Vec::new(alloc);
    put_key_form(&mut form, key)?;
    if !full && form.len() > MAX_WIDTH {
        form.truncate(MAX_WIDTH - 3);
        quoted(alloc, &form, "...\"")
    } else {
        quoted(alloc, &form, "\"")
    }
}

// Returns the text of a printed form between a quote and this end.
fn quoted(alloc: Global, form: &[u8], end: &str) -> Result<String, AllocError> {
    let mut text = String::with_capacity(alloc, form.len() + 5)?;
    text.push('"')?;
    for byte in form {
        text.push(char::from(*byte))?;
    }
    text.push_str(end)?;
    Ok(text)
}

/// Returns the table of a reply: a line of its version, and a line for each verdict.
pub fn reply_table(alloc: Global, reply: &Reply) -> Result<String, AllocError> {
    let mut table = String::new(alloc);
    let version = reply.version;
    let count = reply.entries.len();
    writeln!(table, "reply {version}, verdicts {count}")?;
    for (index, entry) in reply.entries.as_slice().iter().enumerate() {
        let verdict = word_of(entry.verdict);
        write!(table, "{index:>6}  {verdict}")?;
        put_places(&mut table, entry.places.as_slice())?;
    }
    Ok(table)
}

fn put_places(table: &mut String, places: &[u16]) -> Result<(), AllocError> {
    for place in places {
        write!(table, " {place}")?;
    }
    table.push('\n')?;
    Ok(())
}

fn word_of(verdict: Verdict) -> &'static str {
    match verdict {
        Verdict::Conflict => "conflict",
        Verdict::TooOld => "too old",
        Verdict::Committed => "committed",
    }
}
