//! Replays recorded files of batch frames: their batches are resolved and the answers printed, or
//! compared with recorded replies.
//!
//! [`run`] is the program `replay` over any words, files and streams, and [`run_in`] takes the
//! words from an environment. Both are in `program`. It opens the files, and `replay_tasks` does
//! with them what the words ask for. `stream` does so if the answers are printed as they come, and
//! `verbose` has the line that says more of a run.
//!
//! How the program ends is defined in `specs/Program.antt`. The public names of the crates below,
//! which the program is made of, are exported here too.
#![tactic(auto)]

mod program;
mod report;
mod stream;
mod verbose;

pub use program::{run, run_in};
pub use replay_arguments::{
    ArgumentsRefusal, CommandLine, Extent, FileError, Files, OpeningError, STANDARD_INPUT,
    Sharding, SummaryFile, Task, WrittenFile, create_files, fail_to_create, fail_to_create_file,
    fail_to_open, open_files, read_words,
};
pub use replay_output::{
    AnswerError, Ending, Form, Line, LineFilter, Options, PackedText, PrintError, ProxyFailure,
    Report, Reports, StartError, Status, Style, fail_to_start, print_answers, print_report,
    write_record,
};
pub use replay_stream::Recorder;
pub use replay_summary::SummaryForm;
pub use replay_tasks::{
    CheckReport, Ended, Met, RepliesError, SummaryRequest, SummaryWriter, check_over,
    check_sharded_over, explain_lines, explain_over, fail_to_read_replies, print_check,
    print_explained, print_summary, read_replies, replay_and_summarize_over,
    replay_and_summarize_sharded_over, replay_over, replay_sharded_over, summarize_over,
    summarize_sharded_over,
};
pub use replay_workers::{
    AlwaysOpen, Assignment, Finished, Gatekeeper, MostUnanswered, ShareKeeper, Unshared, work,
};
pub use report::RunReport;
pub use stream::stream_over;
