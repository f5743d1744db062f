//! That no file is both read and written.

ghost use Rattle.std.specs.Prelude.{◌≡◌, ◌||◌, map, option_map};
ghost use Rattle.std.specs.List.{list_any};
ghost use Rattle.clap.specs.Words.{found_of, rows_of};
ghost use Rattle.replay_arguments.specs.KeptInputs.{has_written_input, is_among, is_name, is_read};
ghost use Rattle.replay_arguments.specs.KeptInputs.{is_read_if_any, given_names};
ghost use Rattle.replay_arguments.specs.Names.{texts};

use crate::opened_files::STANDARD_INPUT;
use clap::ArgMatches;

/// Returns whether a file that is written is one of those that are read. Names are compared as
/// texts.
pub fn writes_input(matches: &ArgMatches) -> bool
    ensures writes { result ≡ has_written_input (rows_of (found_of matches.now)) }
{
    let files = given(matches.get_strs("FILE"));
    let replies = given(matches.get_strs("check"));
    let records = given(matches.get_strs("replies"));
    let points = matches.get_str("split-points");
    let inputs = Inputs {
        files,
        replies,
        points,
    };
    let has_output = inputs.have_if_any(matches.get_str("output"));
    let has_summary = inputs.have_if_any(matches.get_str("summary-to"));
    let has_record = inputs.have_one_of(records);
    is_any_true(has_output, has_summary, has_record)
}

fn is_any_true(one: bool, two: bool, three: bool) -> bool
    ensures any { result ≡ one || (two || three) }
{
    one || two || three
}

// The names of the files that are read.
#[derive(Clone, Copy)]
struct Inputs<'m, 'a> {
    files: &'m [&'a str],
    replies: &'m [&'a str],
    points: Option<&'a str>,
}

impl Inputs<'_, '_> {
    // Returns whether a file of one of these names is read.
    fn have_one_of(self, names: &[&str]) -> bool
        ensures one { result ≡ list_any
            (is_read (texts self.entry.files) (texts self.entry.replies)
            (option_map (λ name. name.now) self.entry.points)) (texts names.entry) }
    {
        for name in names {
            if self.have(name) {
                return true;
            }
        }
        false
    }

    // Returns whether a file of this name is read, if a name is given.
    fn have_if_any(self, name: Option<&str>) -> bool
        ensures any { result ≡ is_read_if_any (texts self.entry.files) (texts self.entry.replies)
            (option_map (λ name. name.now) self.entry.points)
            (option_map (λ name. name.now) name.entry) }
    {
        match name {
            Some(name) => self.have(name),
            None => false,
        }
    }

    fn have(self, name: &str) -> bool
        ensures read { result
            ≡ is_read (texts self.entry.files) (texts self.entry.replies)
            (option_map (λ name. name.now) self.entry.points) name.now }
    {
        name != STANDARD_INPUT
            && (is_among(name, self.files)
                || (is_among(name, self.replies) || is_name(name, self.points)))
    }
}

fn is_among(name: &str, names: &[&str]) -> bool
    ensures among { result ≡ is_among name.now (texts names.entry) }
{
    for other in names {
        if *other == name {
            return true;
        }
    }
    false
}

// Returns whether this is the other name, if that is given.
fn is_name(name: &str, other: Option<&str>) -> bool
    ensures same { result ≡ is_name name.now (option_map (λ name. name.now) other.entry) }
{
    match other {
        Some(other) => other == name,
        None => false,
    }
}

// Returns the names, or none if none are given.
fn given<'m, 'a>(names: Option<&'m [&'a str]>) -> &'m [&'a str]
    ensures names { texts result
        ≡ given_names (option_map (λ s. map (λ v. v.now) s.now) names.entry) }
{
    match names {
        Some(names) => names,
        None => &[],
    }
}
