//! The words of the command line.

ghost use Rattle.std.specs.Prelude.{◌≡◌, IfErr, IfOk, OnOk, map, string_bytes};
ghost use Rattle.clap.specs.Words.{found_of, rows_of};
ghost use Rattle.replay_arguments.specs.Asked.{IsLineOf};
ghost use Rattle.replay_arguments.specs.Asks.{Asks};
ghost use Rattle.replay_arguments.specs.Arguments.{AsksForText, IsMistaken, IsRefusalBy, IsTaken};
ghost use Rattle.replay_arguments.specs.Arguments.{faults_of, rows_of_words};

use crate::arguments::asked::{Asked, asked_of};
use crate::arguments::task::task_of;
use clap::ArgMatches;
use replay_output::Options;
use std::alloc::{AllocError, Global};

mod asked;
mod command;
mod details;
mod explain_option;
mod filter_options;
mod input;
mod kept_inputs;
mod mistake;
mod names;
mod print_options;
mod refusal;
mod report_options;
mod shard_options;
mod summary;
mod summary_file;
mod task;

pub use details::MAX_TOP;
pub use refusal::ArgumentsRefusal;
pub use shard_options::{MAX_RESOLVERS, Sharding};
pub use summary_file::SummaryFile;
pub use task::Task;

/// What the command line asks for. `Options` keeps its numbers within their ranges.
#[derive(Debug, Drop)]
pub struct CommandLine<'a> {
    /// The names of the files of batches, from 1 to [`MAX_PROXIES`](limits::MAX_PROXIES). At most
    /// one name of these, of replies and of split points is
    /// [`STANDARD_INPUT`](crate::STANDARD_INPUT).
    pub files: Vec<&'a str>,
    /// What is printed.
    pub task: Task<'a>,
    /// The name of the file for the output, if it isn't standard output.
    pub output: Option<&'a str>,
    /// The file for the summary that is written beside the answers, if one is requested.
    pub summary_to: Option<SummaryFile<'a>>,
    /// A failure is explained by one more line on standard error. Without one, a line says if all
    /// batches are held.
    pub verbose: bool,
    pub options: Options,
    pub sharding: Sharding<'a>,
}

/// Reads the words of the command line, of which the first is the program's name. An error says how
/// the program ends instead of replaying, by [`ArgumentsRefusal::end`].
pub fn read_words<'a>(
    alloc: Global,
    words: &'a [String],
) -> Result<CommandLine<'a>, ArgumentsRefusal>
    ensures asks { IfOk result (Asks (map string_bytes words.entry.now)) }
    ensures shown { (text : _) → result ≡ Err (ArgumentsRefusal.Shown text)
        → AsksForText (map string_bytes words.entry.now) }
    ensures refused { (text : _) → result ≡ Err (ArgumentsRefusal.Refused text)
        → IsMistaken (map string_bytes words.entry.now) }
{
    let matches = parse(alloc, words)?;
    match asked_of(&matches) {
        Ok(asked) => Ok(CommandLine::new(alloc, &asked)?),
        Err(mistake) => Err(mistake.refuse(alloc)?),
    }
}

impl<'a> CommandLine<'a> {
    fn new(alloc: Global, asked: &Asked<'_, 'a>) -> Result<Self, AllocError>
        ensures line { IfOk result (IsLineOf asked.now) }
    {
        Ok(CommandLine {
            files: Vec::from_slice(alloc, asked.names.files)?,
            task: task_of(alloc, asked)?,
            output: asked.names.output,
            summary_to: asked.names.summary,
            verbose: asked.details.verbose,
            options: asked.options,
            sharding: asked.sharding,
        })
    }
}

fn parse<'a>(alloc: Global, words: &'a [String]) -> Result<ArgMatches<'a>, ArgumentsRefusal>
    ensures rows { IfOk result (λ matches.
        rows_of (found_of matches) ≡ rows_of_words (map string_bytes words.entry.now)) }
    ensures taken { OnOk result (IsTaken (map string_bytes words.entry.now)) }
    ensures refusal { IfErr result (IsRefusalBy (faults_of (map string_bytes words.entry.now))) }
{
    match command::command(alloc)?.try_get_matches_from(words) {
        Ok(matches) => Ok(matches),
        Err(error) => Err(ArgumentsRefusal::of_clap(alloc, &error)?),
    }
}
