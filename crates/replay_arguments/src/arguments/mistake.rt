//! Mistakes in arguments that `clap` has taken.

ghost use Rattle.std.specs.Prelude.{IfOk};
ghost use Rattle.replay_arguments.specs.Arguments.{IsRefusalOf};

use crate::arguments::command::command;
use crate::arguments::refusal::ArgumentsRefusal;
use clap::error::ErrorKind;
use std::alloc::{AllocError, Global};

/// Why arguments are of no use.
#[derive(Clone, Copy, Debug, PartialEq, Eq)]
pub enum Mistake {
    /// Two forms of answers are requested.
    Forms,
    /// `--quiet` has a value. `clap` refuses it itself.
    Quiet,
    /// The text of `--only` is no verdict.
    Verdict,
    /// The text of `--versions` is no range of versions.
    Versions,
    /// Some answers only are to be compared.
    FilterOfCheck,
    /// Answers are to be compared as they come.
    CheckOfStream,
    /// A summary is requested beside an option that says what to print.
    Summary,
    /// Explanations are requested without lines of words at the end.
    Explain,
    /// Ranges are requested without a summary that is printed.
    Top,
    /// `--verbose` has a value. `clap` refuses it itself.
    Verbose,
    /// `--report-all` has a value. `clap` refuses it itself.
    ReportAll,
    /// A number is out of its range. `clap` refuses it itself.
    Number,
    /// There are no files, or too many.
    Files,
    /// Standard input is named twice.
    Input,
    /// A file that is written is also read.
    WrittenInput,
    /// The files of replies are another number than the files.
    Replies,
    /// Files for records are given without a stream.
    RecordsAlone,
    /// The files for records are another number than the files.
    Records,
    /// A file for the summary is given without answers alone, as words or JSON, at the end.
    SummaryFile,
    /// Several resolvers are to do what one alone can.
    Resolvers,
    /// Standard input is a file of several resolvers.
    InputOfResolvers,
    /// Split points are given for one resolver.
    SplitPoints,
}

impl Mistake {
    /// Returns the refusal that says what is wanted.
    pub fn refuse(self, alloc: Global) -> Result<ArgumentsRefusal, AllocError>
        ensures refusal { IfOk result (IsRefusalOf ErrorKind.ArgumentConflict) }
    {
        let error = command(alloc)?.error(ErrorKind::ArgumentConflict, self.message())?;
        ArgumentsRefusal::of_clap(alloc, &error)
    }

    fn message(self) -> &'static str {
        match self {
            Mistake::Forms => "at most one of --frames, --json and --check is wanted",
            Mistake::Quiet => "--quiet takes no value",
            Mistake::Verdict => "--only is committed, conflict or tooold",
            Mistake::Versions => {
                "--versions is A..B with integers of 64 bits, of which each can be omitted"
            }
            Mistake::FilterOfCheck => "--quiet, --only and --versions are wanted without --check",
            Mistake::CheckOfStream => "--stream is wanted without --check",
            Mistake::Summary => {
                "--summary is wanted without --check, --stream, --frames, --quiet, --only and \
                 --versions"
            }
            Mistake::Explain => {
                "--explain is wanted without --check, --stream, --summary and --frames"
            }
            Mistake::Top => "--top is wanted with --summary",
            Mistake::Verbose => "--verbose takes no value",
            Mistake::ReportAll => "--report-all takes no value",
            Mistake::Number => "a number is out of its range",
            Mistake::Files => "from 1 to 64 files are wanted",
            Mistake::Input => "standard input (-) can be given only once",
            Mistake::WrittenInput => {
                "--output, --summary-to and --replies are wanted with files that aren't read"
            }
            Mistake::Replies => "--check REPLIES is wanted once a file",
            Mistake::RecordsAlone => "--replies OUT is wanted with --stream",
            Mistake::Records => "--replies OUT is wanted once a file",
            Mistake::SummaryFile => {
                "--summary-to is wanted without --check, --stream, --summary, --explain and \
                 --frames"
            }
            Mistake::Resolvers => {
                "--resolvers above 1 is wanted without --stream, --explain, --top and --report-all"
            }
            Mistake::InputOfResolvers => {
                "--resolvers above 1 is wanted without standard input (-) as a FILE"
            }
            Mistake::SplitPoints => "--split-points POINTS is wanted with --resolvers above 1",
        }
    }
}
