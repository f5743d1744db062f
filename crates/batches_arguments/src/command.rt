//! The command line as `clap` sees it.

use clap::builder::ValueParser;
use clap::{Arg, ArgAction, Command};
use shards::MAX_SPLIT_POINTS;
use std::alloc::{AllocError, Global};

const EXAMPLE: &str =
    "Example:\n  batches encode batches.jsonl > batches && batches decode batches";

/// Returns the command of the program.
pub fn command<'a>(alloc: Global) -> Result<Command<'a>, AllocError> {
    let converting = add_conversions(alloc, program(alloc))?;
    add_counts(alloc, converting)
}

// Returns the command without its subcommands.
fn program<'a>(alloc: Global) -> Command<'a> {
    Command::new(alloc, "batches")
        .version("0.2.0")
        .about(
            "Turns lines of JSON into frames of batches or replies and back, and looks at frames",
        )
        .after_long_help(EXAMPLE)
        .subcommand_required(true)
        .arg_required_else_help(true)
}

// Adds the subcommands that convert, and the one that starts a chain.
fn add_conversions<'a>(alloc: Global, command: Command<'a>) -> Result<Command<'a>, AllocError> {
    let encoding = add(command, encode(alloc))?;
    let decoding = add(encoding, decode(alloc))?;
    let showing = add(decoding, show(alloc))?;
    add(showing, opening(alloc))
}

// Adds the subcommands that count batches, or clip them to shards.
fn add_counts<'a>(alloc: Global, command: Command<'a>) -> Result<Command<'a>, AllocError> {
    let counting = add(command, stats(alloc))?;
    let splitting = add(counting, split_points(alloc))?;
    let clipping = add(splitting, clip(alloc))?;
    add(clipping, report(alloc))
}

// Adds a subcommand, if there was memory for it.
fn add<'a>(
    command: Command<'a>,
    subcommand: Result<Command<'a>, AllocError>,
) -> Result<Command<'a>, AllocError> {
    command.subcommand(subcommand?)
}

fn encode<'a>(alloc: Global) -> Result<Command<'a>, AllocError> {
    Command::new(alloc, "encode")
        .about("Reads JSON, one batch per line, and writes frames")
        .arg(replies(alloc))?
        .arg(file(alloc))
}

fn decode<'a>(alloc: Global) -> Result<Command<'a>, AllocError> {
    Command::new(alloc, "decode")
        .about("Reads frames and writes JSON, one batch per line")
        .arg(replies(alloc))?
        .arg(file(alloc))
}

fn show<'a>(alloc: Global) -> Result<Command<'a>, AllocError> {
    Command::new(alloc, "show")
        .about("Reads frames and prints them as a table for people")
        .arg(replies(alloc))?
        .arg(full(alloc))?
        .arg(file(alloc))
}

fn opening<'a>(alloc: Global) -> Result<Command<'a>, AllocError> {
    Command::new(alloc, "opening")
        .about("Writes the frame of the batch that starts a chain at a version")
        .arg(version(alloc))
}

fn stats<'a>(alloc: Global) -> Result<Command<'a>, AllocError> {
    Command::new(alloc, "stats")
        .about("Reads frames of batches and prints what they add up to")
        .arg(json(alloc))?
        .arg(files(alloc))
}

fn split_points<'a>(alloc: Global) -> Result<Command<'a>, AllocError> {
    Command::new(alloc, "split-points")
        .about("Reads frames of batches, prints keys that split their ranges evenly, one per line")
        .arg(resolvers(alloc))?
        .arg(files(alloc))
}

fn clip<'a>(alloc: Global) -> Result<Command<'a>, AllocError> {
    Command::new(alloc, "clip")
        .about("Reads frames of batches and writes those of one resolver's shard")
        .arg(points(alloc))?
        .arg(shard(alloc))?
        .arg(file(alloc))
}

fn report<'a>(alloc: Global) -> Result<Command<'a>, AllocError> {
    Command::new(alloc, "report")
        .about("Reads frames of batches and of their replies and writes a page of HTML")
        .arg(replies_of_report(alloc))?
        .arg(output(alloc))?
        .arg(files(alloc))
}

fn version<'a>(alloc: Global) -> Arg<'a> {
    number(alloc, "version", "V", ValueParser::signed(0, i64::MAX)).help(
        "The version of the batch: every read below it conflicts",
    )
}

fn json<'a>(alloc: Global) -> Arg<'a> {
    flag(alloc, "json").help("Prints one object of JSON")
}

fn resolvers<'a>(alloc: Global) -> Arg<'a> {
    let parser = ValueParser::unsigned(1, MAX_SPLIT_POINTS as u64 + 1);
    number(alloc, "resolvers", "K", parser).help("How many resolvers share the keys, from 1 to 64")
}

fn points<'a>(alloc: Global) -> Arg<'a> {
    valued(alloc, "split-points", "POINTS")
        .required(true)
        .help("The file of the split points, one key per line")
}

fn shard<'a>(alloc: Global) -> Arg<'a> {
    let parser = ValueParser::unsigned(0, MAX_SPLIT_POINTS as u64);
    number(alloc, "shard", "I", parser).help("The number of the shard, from 0")
}

fn replies_of_report<'a>(alloc: Global) -> Arg<'a> {
    valued(alloc, "replies", "REPLIES")
        .action(ArgAction::Append)
        .required(true)
        .help("A file of the frames of replies; once for each")
}

fn output<'a>(alloc: Global) -> Arg<'a> {
    valued(alloc, "output", "PAGE")
        .short('o')
        .help("The file to write; standard output where none is given")
}

fn replies<'a>(alloc: Global) -> Arg<'a> {
    flag(alloc, "replies").help("The frames are those of replies, and not of batches")
}

fn full<'a>(alloc: Global) -> Arg<'a> {
    flag(alloc, "full").help("Prints wide keys whole, and doesn't cut them")
}

fn file<'a>(alloc: Global) -> Arg<'a> {
    Arg::new(alloc, "FILE").help("The file to read; standard input where none is given, or -")
}

fn files<'a>(alloc: Global) -> Arg<'a> {
    Arg::new(alloc, "FILE").action(ArgAction::Append).help(
        "The files to read; standard input where none is given, or -",
    )
}

// An option without a value.
fn flag<'a>(alloc: Global, name: &'a str) -> Arg<'a> {
    Arg::new(alloc, name).long(name).action(ArgAction::SetTrue)
}

// A required option that is a number.
fn number<'a>(alloc: Global, name: &'a str, value: &'a str, parser: ValueParser<'a>) -> Arg<'a> {
    valued(alloc, name, value)
        .value_parser(parser)
        .required(true)
}

// An option with a value.
fn valued<'a>(alloc: Global, name: &'a str, value: &'a str) -> Arg<'a> {
    Arg::new(alloc, name).long(name).value_name(value)
}
