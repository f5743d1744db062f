//! A summary as a line of JSON.

ghost use Rattle.std.specs.Prelude.{◌≡◌, ◌++◌, OnOk, codes};
ghost use Rattle.std.specs.List.{flat_map, enumerate_from};
ghost use Rattle.replay_summary.specs.Text.{members, members_to_end, occupancy_members};
ghost use Rattle.replay_summary.specs.Text.{other_members, proxy_object, proxy_objects};
ghost use Rattle.replay_summary.specs.Text.{resolver_members};
ghost use Rattle.replay_summary.specs.Text.{verdict_members, version_member};

use super::number::put_number;
use super::rate::put_rate;
use crate::occupancy::Occupancy;
use crate::summary::Summary;
use crate::versions::Versions;
use std::io;
use std::io::Write;

/// Appends the object of all proxies, and of the resolver if its occupancy is known, its newline
/// included.
pub fn put_object(
    out: &mut Vec<u8>,
    summaries: &[Summary],
    total: &Summary,
    occupancy: Option<Occupancy>,
) -> io::Result<()>
    ensures text { OnOk result (out.new.items ≡ out.old.items
        ++ codes "{\"proxies\":[" ++ proxy_objects summaries.now ++ codes "]," ++ members total.now
        ++ resolver_members occupancy ++ codes "}\n") }
{
    out.write_all(b"{\"proxies\":[")?;
    put_proxies(out, summaries)?;
    out.write_all(b"],")?;
    put_members(out, total)?;
    put_resolver(out, occupancy)?;
    out.write_all(b"}\n")
}

fn put_resolver(out: &mut Vec<u8>, occupancy: Option<Occupancy>) -> io::Result<()>
    ensures text { OnOk result (out.new.items ≡ out.old.items ++ resolver_members occupancy) }
{
    let Some(occupancy) = occupancy else {
        return Ok(());
    };
    put_occupancy(out, occupancy)
}

fn put_occupancy(out: &mut Vec<u8>, occupancy: Occupancy) -> io::Result<()>
    ensures text { OnOk result (out.new.items ≡ out.old.items ++ occupancy_members occupancy) }
{
    put_number(out, b",\"most_held\":", occupancy.most_held)?;
    put_number(out, b",\"boundaries\":", occupancy.boundaries)?;
    put_number(out, b",\"most_boundaries\":", occupancy.most_boundaries)
}

// Appends the objects of the proxies, with a comma between.
fn put_proxies(out: &mut Vec<u8>, summaries: &[Summary]) -> io::Result<()>
    ensures text { OnOk result (out.new.items ≡ out.old.items ++ proxy_objects summaries.now) }
{
    for (proxy, summary) in summaries.iter().enumerate() {
        put_proxy(out, proxy, summary)?;
    }
    Ok(())
}

// Appends the object of a proxy, after a comma unless it is the first one.
fn put_proxy(out: &mut Vec<u8>, proxy: usize, summary: &Summary) -> io::Result<()>
    ensures text { OnOk result
        (out.new.items ≡ out.old.items ++ proxy_object (proxy, summary.now)) }
{
    if proxy > 0 {
        out.write_all(b",")?;
    }
    put_number(out, b"{\"proxy\":", proxy)?;
    out.write_all(b",")?;
    put_to_end(out, summary)
}

// Appends the members of a summary, to the end of the object.
fn put_to_end(out: &mut Vec<u8>, summary: &Summary) -> io::Result<()>
    ensures text { OnOk result (out.new.items ≡ out.old.items ++ members_to_end summary.now) }
{
    put_members(out, summary)?;
    out.write_all(b"}")
}

// Appends the members of a summary.
fn put_members(out: &mut Vec<u8>, summary: &Summary) -> io::Result<()>
    ensures text { OnOk result (out.new.items ≡ out.old.items ++ members summary.now) }
{
    put_verdicts(out, summary)?;
    put_rate(out, b",\"conflict_percent\":", summary, b"", b"null")?;
    put_others(out, summary)?;
    put_versions(out, summary.versions)
}

fn put_verdicts(out: &mut Vec<u8>, summary: &Summary) -> io::Result<()>
    ensures text { OnOk result (out.new.items ≡ out.old.items ++ verdict_members summary.now) }
{
    put_number(out, b"\"batches\":", summary.batches)?;
    put_number(out, b",\"transactions\":", summary.transactions)?;
    put_number(out, b",\"committed\":", summary.committed)?;
    put_number(out, b",\"conflict\":", summary.conflict)?;
    put_number(out, b",\"tooold\":", summary.too_old)
}

fn put_others(out: &mut Vec<u8>, summary: &Summary) -> io::Result<()>
    ensures text { OnOk result (out.new.items ≡ out.old.items ++ other_members summary.now) }
{
    put_number(out, b",\"repeats\":", summary.repeats)?;
    put_number(out, b",\"never\":", summary.never)?;
    put_number(out, b",\"held\":", summary.held)
}

fn put_versions(out: &mut Vec<u8>, versions: Option<Versions>) -> io::Result<()>
    ensures text { OnOk result (out.new.items ≡ out.old.items ++ version_member versions) }
{
    match versions {
        Some(Versions { first, last }) => write!(
            out,
            ",\"versions\":{{\"first\":{first},\"last\":{last}}}"
        ),
        None => out.write_all(b",\"versions\":null"),
    }
}
