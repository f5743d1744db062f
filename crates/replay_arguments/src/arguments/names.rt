//! The names of files among the arguments.

ghost use Rattle.std.specs.Prelude.{◌≡◌, ◌≤◌, ◌⊎◌, [], IfOk, IfSome, OnErr, OnOk, Some, codes};
ghost use Rattle.std.specs.Prelude.{is_some, length, map, true};
ghost use Rattle.clap.specs.Words.{all_of, found_of, rows_of};
ghost use Rattle.replay_arguments.specs.Names.{HoldsNames};
ghost use Rattle.replay_arguments.specs.Arguments.{HasFiles, HasRecords, HasReplies, HoldsExplain};
ghost use Rattle.replay_arguments.specs.Arguments.{HoldsForm, HoldsStream, HoldsSummary};
ghost use Rattle.replay_arguments.specs.Arguments.{NamesNothing, given_names};

use crate::arguments::input::has_input_once;
use crate::arguments::kept_inputs::writes_input;
use crate::arguments::mistake::Mistake;
use crate::arguments::print_options::Printing;
use crate::arguments::summary_file::{SummaryFile, summary_file};
use clap::ArgMatches;
use limits::MAX_PROXIES;
use replay_output::Form;

/// The names of files that the arguments give.
#[derive(Clone, Copy, Debug)]
pub struct Names<'m, 'a> {
    /// Those of batches, from 1 to [`MAX_PROXIES`].
    pub files: &'m [&'a str],
    /// Those of replies, one per file if answers are compared, and otherwise none.
    pub replies: &'m [&'a str],
    /// Those for records of answers, one per file if they are requested, and otherwise none.
    pub records: &'m [&'a str],
    /// That of the file for the output, if it isn't standard output.
    pub output: Option<&'a str>,
    /// The file for the summary, if there is one.
    pub summary: Option<SummaryFile<'a>>,
}

/// Returns the names, unless they are too few or too many for what is printed.
pub fn names_of<'m, 'a>(
    matches: &'m ArgMatches<'a>,
    printing: Printing,
) -> Result<Names<'m, 'a>, Mistake>
    ensures names { HoldsForm (rows_of (found_of matches.entry.now)) printing.style.form
        → HoldsStream (rows_of (found_of matches.entry.now)) printing.is_streamed
        → HoldsSummary (rows_of (found_of matches.entry.now)) printing.style.form printing.summary
        → HoldsExplain (rows_of (found_of matches.entry.now)) printing.explains
        → IfOk result (HoldsNames (rows_of (found_of matches.entry.now)) printing) }
    ensures none { OnErr result (
        HoldsForm (rows_of (found_of matches.entry.now)) printing.style.form
        → HoldsStream (rows_of (found_of matches.entry.now)) printing.is_streamed
        → HoldsSummary (rows_of (found_of matches.entry.now)) printing.style.form printing.summary
        → HoldsExplain (rows_of (found_of matches.entry.now)) printing.explains
        → NamesNothing (rows_of (found_of matches.entry.now))) }
{
    let Some(files) = files_of(matches) else {
        return Err(Mistake::Files);
    };
    if !has_input_once(matches) {
        return Err(Mistake::Input);
    }
    if writes_input(matches) {
        return Err(Mistake::WrittenInput);
    }
    let replies = replies_of(matches, printing.style.form, files.len())?;
    let records = records_of(matches, printing.is_streamed, files.len())?;
    let Some(summary) = summary_file(matches, printing) else {
        return Err(Mistake::SummaryFile);
    };
    Ok(Names {
        files,
        replies,
        records,
        output: matches.get_str("output"),
        summary,
    })
}

// Returns the files, unless there are none or more than [`MAX_PROXIES`].
fn files_of<'m, 'a>(matches: &'m ArgMatches<'a>) -> Option<&'m [&'a str]>
    ensures files { IfSome result (λ files. all_of (codes "FILE")
        (rows_of (found_of matches.entry.now))
        ≡ Some (map (λ name. name.now) files.now)) }
    ensures least { IfSome result (λ files. 1 ≤ length files.now) }
    ensures most { IfSome result (λ files. length files.now ≤ MAX_PROXIES) }
    ensures none { result ≡ None → ¬ HasFiles (rows_of (found_of matches.entry.now)) }
{
    let files = matches.get_strs("FILE")?;
    if files.is_empty() || files.len() > MAX_PROXIES {
        return None;
    }
    Some(files)
}

// Returns the files of replies if replies are kept to be checked, and otherwise none.
fn replies_of<'m, 'a>(
    matches: &'m ArgMatches<'a>,
    form: Form,
    file_count: usize,
) -> Result<&'m [&'a str], Mistake>
    ensures replies { IfOk result (λ replies. form ≡ Form.Kept
        → all_of (codes "check") (rows_of (found_of matches.entry.now))
        ≡ Some (map (λ name. name.now) replies.now)) }
    ensures as_many { IfOk result (λ replies. form ≡ Form.Kept → length replies.now ≡ file_count) }
    ensures none { OnErr result ((form ≡ Form.Kept)
        × ¬ HasReplies file_count (rows_of (found_of matches.entry.now))) }
{
    if form != Form::Kept {
        return Ok(no_names());
    }
    let Some(replies) = matches.get_strs("check") else {
        return Err(Mistake::Replies);
    };
    if replies.len() != file_count {
        return Err(Mistake::Replies);
    }
    Ok(replies)
}

// Returns the files for records of answers, one per file, or none. Only a stream has any.
fn records_of<'m, 'a>(
    matches: &'m ArgMatches<'a>,
    is_streamed: bool,
    file_count: usize,
) -> Result<&'m [&'a str], Mistake>
    ensures records { IfOk result (λ records. map (λ name. name.now) records.now
        ≡ given_names (all_of (codes "replies") (rows_of (found_of matches.entry.now)))) }
    ensures each { IfOk result (λ records. (length records.now ≡ 0)
        ⊎ (length records.now ≡ file_count)) }
    ensures streamed { OnOk result (
        is_some (all_of (codes "replies") (rows_of (found_of matches.entry.now))) ≡ true
        → is_streamed ≡ true) }
    ensures none { OnErr result (HoldsStream (rows_of (found_of matches.entry.now)) is_streamed
        → (is_some (all_of (codes "replies") (rows_of (found_of matches.entry.now))) ≡ true)
        × ¬ HasRecords file_count (rows_of (found_of matches.entry.now))) }
{
    let Some(names) = matches.get_strs("replies") else {
        return Ok(no_names());
    };
    if !is_streamed {
        return Err(Mistake::RecordsAlone);
    }
    if names.len() != file_count {
        return Err(Mistake::Records);
    }
    Ok(names)
}

fn no_names<'m, 'a>() -> &'m [&'a str]
    ensures none { result.now ≡ [] }
{
    &[]
}
