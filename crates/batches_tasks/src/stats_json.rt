//! What batches add up to, as one object of JSON.

ghost use Rattle.std.specs.Prelude.{◌≡◌, ◌++◌, codes, IfOk, OnOk, Some};
ghost use Rattle.batches_tasks.specs.StatsJson.{first_member, number_member};
ghost use Rattle.batches_tasks.specs.StatsJson.{spread_member, spread_object, stats_json};
ghost use Rattle.batches_tasks.specs.StatsJson.{versions_member};

use crate::failure::Failure;
use crate::put::{put_decimal, put_mean, put_text};
use crate::spread::Spread;
use crate::stats::Stats;
use std::alloc::Global;
use std::io::Write;

/// Returns the line of JSON of what batches add up to.
pub fn json_of_stats(alloc: Global, stats: &Stats) -> Result<Vec<u8>, Failure>
    ensures text { IfOk result (λ text. text.items ≡ stats_json stats.now) }
{
    let mut out = Vec::new(alloc);
    let txns = &stats.of_txns;
    put_first(&mut out, stats.txns.count)?;
    put_number(&mut out, "bytes", stats.bytes)?;
    put_versions(&mut out, stats.versions)?;
    put_number(&mut out, "transactions", stats.txns.total)?;
    put_number(&mut out, "reports", txns.marked)?;
    put_spread(&mut out, "transactions_per_batch", &stats.txns)?;
    put_number(&mut out, "reads", txns.reads.total)?;
    put_spread(&mut out, "reads_per_transaction", &txns.reads)?;
    put_number(&mut out, "writes", txns.writes.total)?;
    put_spread(&mut out, "writes_per_transaction", &txns.writes)?;
    put_number(&mut out, "keys", stats.keys.count)?;
    put_spread(&mut out, "key_bytes", &stats.keys)?;
    put_end(&mut out)?;
    Ok(out)
}

// Writes the begin of the object, and its first member.
fn put_first(out: &mut Vec<u8>, batches: u64) -> Result<(), Failure>
    ensures text { OnOk result (out.new.items ≡ out.old.items ++ first_member batches) }
{
    Ok(write!(out, "{{\"batches\":{batches}")?)
}

fn put_end(out: &mut Vec<u8>) -> Result<(), Failure>
    ensures text { OnOk result (out.new.items ≡ out.old.items ++ codes "}\n") }
{
    Ok(writeln!(out, "}}")?)
}

fn put_number(out: &mut Vec<u8>, name: &str, number: u64) -> Result<(), Failure>
    ensures text { OnOk result (out.new.items ≡ out.old.items ++ number_member name.now number) }
{
    Ok(write!(out, ",\"{name}\":{number}")?)
}

fn put_versions(out: &mut Vec<u8>, versions: Option<(i64, i64)>) -> Result<(), Failure>
    ensures text { OnOk result (out.new.items ≡ out.old.items ++ versions_member versions) }
{
    match versions {
        None => Ok(write!(out, ",\"versions\":null")?),
        Some((least, greatest)) => Ok(write!(out, ",\"versions\":[{least},{greatest}]")?),
    }
}

fn put_spread(out: &mut Vec<u8>, name: &str, spread: &Spread) -> Result<(), Failure>
    ensures text { OnOk result (out.new.items
        ≡ out.old.items ++ spread_member name.now spread.now) }
{
    put_text(out, ",\"")?;
    put_text(out, name)?;
    put_text(out, "\":")?;
    put_value(out, spread)
}

fn put_value(out: &mut Vec<u8>, spread: &Spread) -> Result<(), Failure>
    ensures text { OnOk result
        (out.new.items ≡ out.old.items ++ spread_object spread.now spread.now.ends) }
{
    match spread.ends {
        None => put_text(out, "null"),
        Some((least, greatest)) => put_ends(out, spread, least, greatest),
    }
}

fn put_ends(out: &mut Vec<u8>, spread: &Spread, least: u64, greatest: u64) -> Result<(), Failure>
    ensures text { OnOk result
        (out.new.items ≡ out.old.items ++ spread_object spread.now (Some (least, greatest))) }
{
    put_text(out, "{\"least\":")?;
    put_decimal(out, least)?;
    put_text(out, ",\"mean\":")?;
    put_mean(out, spread)?;
    put_text(out, ",\"greatest\":")?;
    put_decimal(out, greatest)?;
    put_text(out, "}")
}
