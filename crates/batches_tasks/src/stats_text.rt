//! What batches add up to, as lines.

ghost use Rattle.std.specs.Prelude.{◌≡◌, ◌++◌, IfOk, OnOk, Some};
ghost use Rattle.batches_tasks.specs.StatsText.{number_line, spread_line, spread_with};
ghost use Rattle.batches_tasks.specs.StatsText.{stats_text, versions_line};

use crate::failure::Failure;
use crate::put::{put_decimal, put_mean, put_text};
use crate::spread::Spread;
use crate::stats::Stats;
use std::alloc::Global;
use std::io::Write;

/// Returns the lines of what batches add up to.
pub fn text_of_stats(alloc: Global, stats: &Stats) -> Result<Vec<u8>, Failure>
    ensures text { IfOk result (λ text. text.items ≡ stats_text stats.now) }
{
    let mut out = Vec::new(alloc);
    let txns = &stats.of_txns;
    put_number(&mut out, "batches", stats.txns.count)?;
    put_number(&mut out, "bytes", stats.bytes)?;
    put_versions(&mut out, stats.versions)?;
    put_number(&mut out, "transactions", stats.txns.total)?;
    put_number(&mut out, "transactions that request a report", txns.marked)?;
    put_spread(&mut out, "transactions per batch", &stats.txns)?;
    put_number(&mut out, "read ranges", txns.reads.total)?;
    put_spread(&mut out, "read ranges per transaction", &txns.reads)?;
    put_number(&mut out, "write ranges", txns.writes.total)?;
    put_spread(&mut out, "write ranges per transaction", &txns.writes)?;
    put_number(&mut out, "keys", stats.keys.count)?;
    put_spread(&mut out, "key bytes", &stats.keys)?;
    Ok(out)
}

fn put_number(out: &mut Vec<u8>, name: &str, number: u64) -> Result<(), Failure>
    ensures line { OnOk result (out.new.items ≡ out.old.items ++ number_line name.now number) }
{
    Ok(writeln!(out, "{name}: {number}")?)
}

fn put_versions(out: &mut Vec<u8>, versions: Option<(i64, i64)>) -> Result<(), Failure>
    ensures line { OnOk result (out.new.items ≡ out.old.items ++ versions_line versions) }
{
    match versions {
        None => Ok(writeln!(out, "versions: none")?),
        Some((least, greatest)) => Ok(writeln!(out, "versions: {least} to {greatest}")?),
    }
}

fn put_spread(out: &mut Vec<u8>, name: &str, spread: &Spread) -> Result<(), Failure>
    ensures line { OnOk result (out.new.items ≡ out.old.items ++ spread_line name.now spread.now) }
{
    put_text(out, name)?;
    put_text(out, ": ")?;
    put_value(out, spread)?;
    put_text(out, "\n")
}

fn put_value(out: &mut Vec<u8>, spread: &Spread) -> Result<(), Failure>
    ensures text { OnOk result
        (out.new.items ≡ out.old.items ++ spread_with spread.now spread.now.ends) }
{
    match spread.ends {
        None => put_text(out, "none"),
        Some((least, greatest)) => put_ends(out, spread, least, greatest),
    }
}

fn put_ends(out: &mut Vec<u8>, spread: &Spread, least: u64, greatest: u64) -> Result<(), Failure>
    ensures text { OnOk result
        (out.new.items ≡ out.old.items ++ spread_with spread.now (Some (least, greatest))) }
{
    put_text(out, "least ")?;
    put_decimal(out, least)?;
    put_text(out, ", mean ")?;
    put_mean(out, spread)?;
    put_text(out, ", greatest ")?;
    put_decimal(out, greatest)
}
