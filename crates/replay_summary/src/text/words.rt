//! A summary as lines of words.

ghost use Rattle.std.specs.Prelude.{◌≡◌, ◌++◌, OnOk};
ghost use Rattle.std.specs.List.{flat_map, enumerate_from};
ghost use Rattle.replay_summary.specs.Text.{last_line, occupancy_words, other_words, proxy_line};
ghost use Rattle.replay_summary.specs.Text.{resolver_line, verdict_words, version_words, words};

use super::number::put_number;
use super::rate::put_rate;
use crate::occupancy::Occupancy;
use crate::summary::Summary;
use crate::versions::Versions;
use std::io;
use std::io::Write;

/// Appends the line of each proxy, that of all, and that of the resolver if its occupancy is known.
pub fn put_lines_of_run(
    out: &mut Vec<u8>,
    summaries: &[Summary],
    total: &Summary,
    occupancy: Option<Occupancy>,
) -> io::Result<()>
    ensures text { OnOk result (out.new.items ≡ out.old.items
        ++ flat_map proxy_line (enumerate_from 0 summaries.now) ++ last_line total.now
        ++ resolver_line occupancy) }
{
    put_lines(out, summaries, total)?;
    put_resolver(out, occupancy)
}

fn put_resolver(out: &mut Vec<u8>, occupancy: Option<Occupancy>) -> io::Result<()>
    ensures text { OnOk result (out.new.items ≡ out.old.items ++ resolver_line occupancy) }
{
    let Some(occupancy) = occupancy else {
        return Ok(());
    };
    put_occupancy(out, occupancy)?;
    out.write_all(b"\n")
}

fn put_occupancy(out: &mut Vec<u8>, occupancy: Occupancy) -> io::Result<()>
    ensures text { OnOk result (out.new.items ≡ out.old.items ++ occupancy_words occupancy) }
{
    put_number(out, b"resolver: held at most ", occupancy.most_held)?;
    put_number(out, b", boundaries ", occupancy.boundaries)?;
    put_number(out, b", at most ", occupancy.most_boundaries)
}

// Appends the line of each proxy, and that of all.
fn put_lines(out: &mut Vec<u8>, summaries: &[Summary], total: &Summary) -> io::Result<()>
    ensures text { OnOk result (out.new.items ≡ out.old.items
        ++ flat_map proxy_line (enumerate_from 0 summaries.now) ++ last_line total.now) }
{
    for (proxy, summary) in summaries.iter().enumerate() {
        put_line(out, proxy, summary)?;
    }
    out.write_all(b"all: ")?;
    put_words(out, total)
}

// Appends the line of a proxy.
fn put_line(out: &mut Vec<u8>, proxy: usize, summary: &Summary) -> io::Result<()>
    ensures text { OnOk result (out.new.items ≡ out.old.items ++ proxy_line (proxy, summary.now)) }
{
    put_number(out, b"proxy ", proxy)?;
    out.write_all(b": ")?;
    put_words(out, summary)
}

fn put_words(out: &mut Vec<u8>, summary: &Summary) -> io::Result<()>
    ensures text { OnOk result (out.new.items ≡ out.old.items ++ words summary.now) }
{
    put_verdicts(out, summary)?;
    put_rate(out, b", conflict rate ", summary, b" %", b"none")?;
    put_others(out, summary)?;
    put_versions(out, summary.versions)
}

fn put_verdicts(out: &mut Vec<u8>, summary: &Summary) -> io::Result<()>
    ensures text { OnOk result (out.new.items ≡ out.old.items ++ verdict_words summary.now) }
{
    put_number(out, b"batches ", summary.batches)?;
    put_number(out, b", transactions ", summary.transactions)?;
    put_number(out, b", committed ", summary.committed)?;
    put_number(out, b", conflict ", summary.conflict)?;
    put_number(out, b", tooold ", summary.too_old)
}

fn put_others(out: &mut Vec<u8>, summary: &Summary) -> io::Result<()>
    ensures text { OnOk result (out.new.items ≡ out.old.items ++ other_words summary.now) }
{
    put_number(out, b", repeats ", summary.repeats)?;
    put_number(out, b", never ", summary.never)?;
    put_number(out, b", held ", summary.held)
}

fn put_versions(out: &mut Vec<u8>, versions: Option<Versions>) -> io::Result<()>
    ensures text { OnOk result (out.new.items ≡ out.old.items ++ version_words versions) }
{
    match versions {
        Some(Versions { first, last }) => writeln!(out, ", versions {first} to {last}"),
        None => out.write_all(b", versions none\n"),
    }
}
