//! What the command line asks for.

use crate::kind::Kind;
use crate::task::JobTask;

/// The name of standard input, which is read instead of a file.
pub const STANDARD_INPUT: &str = "-";

/// What the command line asks for.
#[derive(Debug, Drop)]
pub enum Job<'a> {
    /// Lines become frames, or frames lines or a table.
    Convert(JobLine<'a>),
    /// The batch that starts a chain at this version, 0 or more.
    Opening(i64),
    /// What the batches of files add up to.
    Stats {
        files: Vec<&'a str>,
        json: bool,
    },
    /// Split points that spread the batches of files evenly over this number of resolvers.
    SplitPoints {
        files: Vec<&'a str>,
        resolvers: usize,
    },
    /// The batches of a file for one shard. Without a name the file is standard input.
    Clip {
        points: &'a str,
        shard: usize,
        file: Option<&'a str>,
    },
    /// A page of what the batches of files and the replies to them add up to. Without a name it is
    /// written to standard output.
    Report {
        files: Vec<&'a str>,
        replies: Vec<&'a str>,
        page: Option<&'a str>,
    },
}

/// A conversion, and the file that it reads.
#[derive(Debug, Drop)]
pub struct JobLine<'a> {
    pub task: JobTask,
    pub kind: Kind,
    /// The name of the file, or none for standard input.
    pub file: Option<&'a str>,
}
