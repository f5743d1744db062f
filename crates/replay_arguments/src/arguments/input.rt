//! Standard input among the names of a command line.

ghost use Rattle.std.specs.Prelude.{◌≡◌, ◌↔◌, ◌+◌, ◌≤◌, IsTrue, map, option_map};
ghost use Rattle.clap.specs.Words.{found_of, rows_of};
ghost use Rattle.replay_arguments.specs.Arguments.{HasInputOnce, count_inputs, inputs_in};
ghost use Rattle.replay_arguments.specs.Arguments.{inputs_of};

use crate::opened_files::STANDARD_INPUT;
use clap::ArgMatches;

/// Returns whether standard input is named at most once, among the files, the files of replies and
/// that of split points.
pub fn has_input_once(matches: &ArgMatches) -> bool
    ensures once { IsTrue result ↔ HasInputOnce (rows_of (found_of matches.now)) }
{
    let files = inputs_of(matches.get_strs("FILE"));
    let replies = inputs_of(matches.get_strs("check"));
    let points = inputs_in(matches.get_str("split-points"));
    are_at_most_one(files, replies, points)
}

fn are_at_most_one(files: usize, replies: usize, points: usize) -> bool
    ensures few { IsTrue result ↔ (files + (replies + points) ≤ 1) }
{
    files <= 1 && replies <= 1 - files && points <= 1 - files - replies
}

// Returns 1 if this is the name of standard input, and otherwise 0.
fn inputs_in(name: Option<&str>) -> usize
    ensures count { result ≡ inputs_in (option_map (λ name. name.now) name.entry) }
{
    match name {
        Some(name) if name == STANDARD_INPUT => 1,
        _ => 0,
    }
}

/// Returns how many of these names are that of standard input, or 0 if there are no names.
pub fn inputs_of(names: Option<&[&str]>) -> usize
    ensures count { result ≡ inputs_of (option_map (λ s. map (λ v. v.now) s.now) names.entry) }
{
    match names {
        Some(names) => count_inputs(names),
        None => 0,
    }
}

fn count_inputs(names: &[&str]) -> usize
    ensures count { result ≡ count_inputs (map (λ name. name.now) names.now) }
{
    let mut count = 0;
    for name in names {
        if *name == STANDARD_INPUT {
            count += 1;
        }
    }
    count
}
