//! Which lines of answers the arguments ask for.

ghost use Rattle.std.specs.Prelude.{◌≡◌, ◌↔◌, ℤ, IfOk, IfSome, OnErr, OnOk, Option, false, is_some};
ghost use Rattle.std.specs.Prelude.{option_map};
ghost use Rattle.clap.specs.Words.{found_of, rows_of};
ghost use Rattle.replay_arguments.specs.Arguments.{AreVersions, AsksForAll, HasFilter, HoldsFilter};
ghost use Rattle.replay_arguments.specs.Arguments.{HoldsForm, IsEnd, IsVersions, verdict_name};
ghost use Rattle.keyspace.specs.declared.reply.Verdict.{Verdict as VerdictValue};

use crate::arguments::mistake::Mistake;
use clap::ArgMatches;
use keyspace::Verdict;
use replay_output::{Form, LineFilter};

/// Returns the filter of the lines that are requested. An error is a text that is no verdict or no
/// range of versions, or a filter beside a comparison.
pub fn filter_of(matches: &ArgMatches, form: Form) -> Result<LineFilter, Mistake>
    ensures filter { IfOk result (HoldsFilter (rows_of (found_of matches.now))) }
    ensures all { OnOk result (form ≡ Form.Kept → AsksForAll (rows_of (found_of matches.now))) }
    ensures err { OnErr result (HoldsForm (rows_of (found_of matches.now)) form
        → ¬ HasFilter (rows_of (found_of matches.now))) }
{
    let (name, text) = (matches.get_str("only"), matches.get_str("versions"));
    let Some(quiet) = matches.get_one("quiet") else {
        return Err(Mistake::Quiet);
    };
    let Some(only) = only_of(name) else {
        return Err(Mistake::Verdict);
    };
    let Some((least, below)) = versions_of(text) else {
        return Err(Mistake::Versions);
    };
    if form.is_kept() && is_filtered(quiet, name, text) {
        return Err(Mistake::FilterOfCheck);
    }
    Ok(LineFilter {
        quiet,
        only,
        least,
        below,
    })
}

/// Returns whether some of these options is given.
pub fn is_filtered(quiet: bool, name: Option<&str>, text: Option<&str>) -> bool
    ensures none { result ≡ false ↔ ((quiet ≡ false) × (is_some name.entry ≡ false)
        × (is_some text.entry ≡ false)) }
{
    quiet || name.is_some() || text.is_some()
}

// Returns the verdict of this name, if one is given, or none for another text.
fn only_of(name: Option<&str>) -> Option<Option<Verdict>>
    ensures only { IfSome result (λ only. option_map (λ s. s.now) name.entry
        ≡ option_map verdict_name only) }
    ensures none { (only : Option VerdictValue) → result ≡ None
        → ¬ (option_map (λ s. s.now) name.entry ≡ option_map verdict_name only) }
{
    match name {
        Some(name) => verdict_of(name).map(Some),
        None => Some(None),
    }
}

fn verdict_of(name: &str) -> Option<Verdict>
    ensures verdict { IfSome result (λ verdict. name.now ≡ verdict_name verdict) }
    ensures none { (verdict : VerdictValue) → result ≡ None → ¬ (name.now ≡ verdict_name verdict) }
{
    match name {
        "committed" => Some(Verdict::Committed),
        "conflict" => Some(Verdict::Conflict),
        "tooold" => Some(Verdict::TooOld),
        _ => None,
    }
}

// Returns the least version and the end of these versions, if some are given, or none for another
// text.
fn versions_of(text: Option<&str>) -> Option<(i64, Option<i64>)>
    ensures versions { IfSome result (λ versions. AreVersions
        (option_map (λ s. s.now) text.entry) versions.0 versions.1) }
    ensures none { (least : ℤ) (below : Option ℤ) → result ≡ None
        → ¬ AreVersions (option_map (λ s. s.now) text.entry) least below }
{
    match text {
        Some(text) => parse_versions(text),
        None => Some((i64::MIN, None)),
    }
}

fn parse_versions(text: &str) -> Option<(i64, Option<i64>)>
    ensures versions { IfSome result (λ versions. IsVersions text.now versions.0 versions.1) }
    ensures none { (least : ℤ) (below : Option ℤ) → result ≡ None
        → ¬ IsVersions text.now least below }
{
    let (from, rest) = text.split_once('.')?;
    let to = rest.strip_prefix('.')?;
    let least = parse_end(from)?;
    let below = parse_end(to)?;
    Some((least.unwrap_or(i64::MIN), below))
}

// Returns the version of an end, if it isn't omitted, or none for another text.
fn parse_end(text: &str) -> Option<Option<i64>>
    ensures end { IfSome result (IsEnd text.now) }
    ensures none { (end : Option ℤ) → result ≡ None → ¬ IsEnd text.now end }
{
    if text.is_empty() {
        return Some(None);
    }
    text.parse().ok().map(Some)
}
