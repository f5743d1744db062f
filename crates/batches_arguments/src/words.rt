//! The words of the command line.

use crate::command::command;
use crate::job::{Job, JobLine, STANDARD_INPUT};
use crate::kind::Kind;
use crate::task::JobTask;
use clap::ArgMatches;
use clap::error::ErrorKind;
use std::alloc::{AllocError, Global};

/// Why nothing is done.
#[derive(Debug, Drop)]
pub enum ArgumentsStop {
    /// Help or the version was asked for: the text for standard output.
    Shown(String),
    /// The command line was refused: the text for standard error.
    Refused(String),
    Memory,
}

impl From<AllocError> for ArgumentsStop {
    fn from(_refused: AllocError) -> ArgumentsStop {
        ArgumentsStop::Memory
    }
}

/// Reads the words of the command line, of which the first is the program's name.
pub fn read_words<'a>(alloc: Global, words: &'a [String]) -> Result<Job<'a>, ArgumentsStop> {
    match command(alloc)?.try_get_matches_from(words) {
        Ok(matches) => job_of(alloc, &matches),
        Err(error) => Err(stop_of(alloc, &error)?),
    }
}

// Returns what the program makes of an error of `clap`.
fn stop_of(alloc: Global, error: &clap::Error) -> Result<ArgumentsStop, AllocError> {
    if error.kind() == ErrorKind::OutOfMemory {
        return Ok(ArgumentsStop::Memory);
    }
    let text = error.to_string(alloc)?;
    if error.use_stderr() {
        Ok(ArgumentsStop::Refused(text))
    } else {
        Ok(ArgumentsStop::Shown(text))
    }
}

// Reads what was matched. `clap` itself refuses a line without a subcommand or a required option,
// and numbers outside their ranges.
fn job_of<'a>(alloc: Global, matches: &ArgMatches<'a>) -> Result<Job<'a>, ArgumentsStop> {
    let Some((name, matches)) = matches.subcommand() else {
        return Err(ArgumentsStop::Memory);
    };
    if name == "opening" {
        opening_of(matches).ok_or(ArgumentsStop::Memory)
    } else if name == "stats" {
        stats_of(alloc, matches)
    } else if name == "split-points" {
        split_points_of(alloc, matches)
    } else if name == "clip" {
        clip_of(matches).ok_or(ArgumentsStop::Memory)
    } else if name == "report" {
        report_of(alloc, matches)
    } else {
        Ok(Job::Convert(line_of(name, matches)))
    }
}

fn line_of<'a>(name: &str, matches: &ArgMatches<'a>) -> JobLine<'a> {
    let task = if name == "encode" {
        JobTask::Encode
    } else if name == "decode" {
        JobTask::Decode
    } else {
        JobTask::Show {
            full: matches.get_flag("full"),
        }
    };
    let kind = if matches.get_flag("replies") {
        Kind::Replies
    } else {
        Kind::Batches
    };
    JobLine {
        task,
        kind,
        file: file_of(matches),
    }
}

fn opening_of<'a>(matches: &ArgMatches<'a>) -> Option<Job<'a>> {
    Some(Job::Opening(matches.get_one("version")?))
}

fn stats_of<'a>(alloc: Global, matches: &ArgMatches<'a>) -> Result<Job<'a>, ArgumentsStop> {
    Ok(Job::Stats {
        files: files_of(alloc, matches)?,
        json: matches.get_flag("json"),
    })
}

fn split_points_of<'a>(alloc: Global, matches: &ArgMatches<'a>) -> Result<Job<'a>, ArgumentsStop> {
    let Some(resolvers) = matches.get_one("resolvers") else {
        return Err(ArgumentsStop::Memory);
    };
    Ok(Job::SplitPoints {
        files: files_of(alloc, matches)?,
        resolvers,
    })
}

fn clip_of<'a>(matches: &ArgMatches<'a>) -> Option<Job<'a>> {
    Some(Job::Clip {
        points: matches.get_str("split-points")?,
        shard: matches.get_one("shard")?,
        file: file_of(matches),
    })
}

fn report_of<'a>(alloc: Global, matches: &ArgMatches<'a>) -> Result<Job<'a>, ArgumentsStop> {
    let Some(replies) = matches.get_strs("replies") else {
        return Err(ArgumentsStop::Memory);
    };
    Ok(Job::Report {
        files: files_of(alloc, matches)?,
        replies: Vec::from_slice(alloc, replies)?,
        page: matches.get_str("output"),
    })
}

// Returns the name of the file, or none for standard input.
fn file_of<'a>(matches: &ArgMatches<'a>) -> Option<&'a str> {
    let name = matches.get_str("FILE")?;
    if name == STANDARD_INPUT {
        None
    } else {
        Some(name)
    }
}

// Returns the names of the files, of which standard input is one if none is given.
fn files_of<'a>(alloc: Global, matches: &ArgMatches<'a>) -> Result<Vec<&'a str>, AllocError> {
    if let Some(files) = matches.get_strs("FILE") {
        return Vec::from_slice(alloc, files);
    }
    let mut files = Vec::new(alloc);
    files.push(STANDARD_INPUT)?;
    Ok(files)
}
