//! The lines of differences.

ghost use Rattle.std.specs.Prelude.{◌≡◌, IsOk, OnOk, codes, length};
ghost use Rattle.std.specs.Io.KnownBytes.{Appends};
ghost use Rattle.checking.specs.Text.{difference_line, difference_lines, entry_text, kind_text};
ghost use Rattle.checking.specs.Text.{place_names, places_text, verdict_name, verdicts_text};

use crate::difference::{Difference, DifferenceKind};
use crate::entries::is_same_verdict;
use keyspace::{Entry, Verdict};
use std::io;
use std::io::Write;

/// Writes a line for each difference of this proxy, in order.
pub fn write_differences<W: Write>(
    out: &mut W,
    proxy: usize,
    differences: &[Difference],
) -> io::Result<()>
    ensures text { OnOk result (Appends (W.contents out.old) (W.contents out.new)
        (difference_lines proxy differences.now)) }
    ensures none { length differences.now ≡ 0 → IsOk result }
{
    for difference in differences {
        write_difference(out, proxy, difference)?;
    }
    Ok(())
}

fn write_difference<W: Write>(out: &mut W, proxy: usize, difference: &Difference) -> io::Result<()>
    ensures text { OnOk result (Appends (W.contents out.old) (W.contents out.new)
        (difference_line proxy difference.now)) }
{
    let version = difference.version;
    write!(out, "{proxy} {version} ")?;
    write_kind(out, &difference.kind)?;
    out.write_all(b"\n")
}

fn write_kind<W: Write>(out: &mut W, kind: &DifferenceKind) -> io::Result<()>
    ensures text { OnOk result (Appends (W.contents out.old) (W.contents out.new)
        (kind_text kind.now)) }
{
    match kind {
        DifferenceKind::Missing => out.write_all(b"missing"),
        DifferenceKind::Unexpected => out.write_all(b"unexpected"),
        DifferenceKind::Count { expected, found } => {
            write!(out, "expected {expected} verdicts, found {found}")
        }
        DifferenceKind::Transaction {
            index,
            expected,
            found,
        } => {
            write!(out, "{index} ")?;
            write_entries(out, expected, found)
        }
    }
}

fn write_entries<W: Write>(out: &mut W, expected: &Entry, found: &Entry) -> io::Result<()>
    ensures text { OnOk result (Appends (W.contents out.old) (W.contents out.new)
        (entry_text expected.now found.now)) }
{
    if is_same_verdict(expected.verdict, found.verdict) {
        write_both_places(out, expected.places.as_slice(), found.places.as_slice())
    } else {
        write_verdicts(out, expected.verdict, found.verdict)
    }
}

fn write_verdicts<W: Write>(out: &mut W, expected: Verdict, found: Verdict) -> io::Result<()>
    ensures text { OnOk result (Appends (W.contents out.old) (W.contents out.new)
        (verdicts_text expected found)) }
{
    out.write_all(b"expected ")?;
    out.write_all(name_of(expected))?;
    out.write_all(b", found ")?;
    out.write_all(name_of(found))
}

fn write_both_places<W: Write>(out: &mut W, expected: &[u16], found: &[u16]) -> io::Result<()>
    ensures text { OnOk result (Appends (W.contents out.old) (W.contents out.new)
        (places_text expected.now found.now)) }
{
    out.write_all(b"places expected ")?;
    write_places(out, expected)?;
    out.write_all(b" found ")?;
    write_places(out, found)
}

fn name_of(verdict: Verdict) -> &'static [u8]
    ensures name { result.now ≡ verdict_name verdict }
{
    match verdict {
        Verdict::Committed => b"committed",
        Verdict::TooOld => b"tooold",
        Verdict::Conflict => b"conflict",
    }
}

fn write_places<W: Write>(out: &mut W, places: &[u16]) -> io::Result<()>
    ensures text { OnOk result (Appends (W.contents out.old) (W.contents out.new)
        (place_names places.now)) }
{
    let Some((first, rest)) = places.split_first() else {
        return out.write_all(b"none");
    };
    write!(out, "{first}")?;
    for place in rest {
        write!(out, ",{place}")?;
    }
    Ok(())
}
