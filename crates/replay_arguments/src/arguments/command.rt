//! The command line as `clap` sees it.

ghost use Rattle.std.specs.Prelude.{◌≡◌, IfOk, false};
ghost use Rattle.clap.specs.Words.{app_of, rule_of};
ghost use Rattle.replay_arguments.specs.Command.{capacity_rule, check_rule, explain_rule};
ghost use Rattle.replay_arguments.specs.Command.{file_rule, frames_rule, json_rule, limit_rule};
ghost use Rattle.replay_arguments.specs.Command.{only_rule, output_rule, program_app, quiet_rule};
ghost use Rattle.replay_arguments.specs.Command.{replay_app, replies_rule, report_all_rule, resolvers_rule};
ghost use Rattle.replay_arguments.specs.Command.{split_points_rule, stream_rule, summary_rule};
ghost use Rattle.replay_arguments.specs.Command.{summary_to_rule, top_rule};
ghost use Rattle.replay_arguments.specs.Command.{verbose_rule, versions_rule, window_rule};
ghost use Rattle.replay_arguments.specs.Command.{with_files, with_printing, with_resolving};

mod forms;

use crate::arguments::details::MAX_TOP;
use crate::arguments::shard_options::MAX_RESOLVERS;
use clap::builder::ValueParser;
use clap::{Arg, ArgAction, Command};
use forms::{flag, number, valued, words};
use limits::{MAX_CAPACITY, MAX_LIMIT, MAX_WINDOW};
use std::alloc::{AllocError, Global};

/// The version, and the toolchain and the logic that prove it, as `rt version` prints them.
const VERSION: &str = "0.2.0 (rattle-kit-13f logic dac8208d650f15bf)";

const EXAMPLE: &str =
    "Example:\n  replay --capacity 1 --frames examples/two_proxies examples/second_proxy";

/// Returns the command of the program.
pub fn command<'a>(alloc: Global) -> Result<Command<'a>, AllocError>
    ensures app { IfOk result (λ command. app_of command ≡ replay_app) }
{
    let resolving = add_resolving(alloc, program(alloc))?;
    let printing = add_printing(alloc, resolving)?;
    let complete = add_files(alloc, printing)?;
    complete.arg(file(alloc))
}

// Returns the command without its arguments.
fn program<'a>(alloc: Global) -> Command<'a>
    ensures app { app_of result ≡ program_app }
{
    Command::new(alloc, "replay")
        .version(VERSION)
        .about("Resolves recorded batches of transactions and prints the verdicts")
        .after_long_help(EXAMPLE)
}

// Adds the options that say how batches are resolved.
fn add_resolving<'a>(alloc: Global, command: Command<'a>) -> Result<Command<'a>, AllocError>
    ensures app { IfOk result (λ added. app_of added ≡ with_resolving (app_of command.entry)) }
{
    command
        .arg(capacity(alloc))?
        .arg(window(alloc))?
        .arg(limit(alloc))?
        .arg(report_all(alloc))?
        .arg(resolvers(alloc))?
        .arg(split_points(alloc))
}

// Adds the options that say what is printed.
fn add_printing<'a>(alloc: Global, command: Command<'a>) -> Result<Command<'a>, AllocError>
    ensures app { IfOk result (λ added. app_of added ≡ with_printing (app_of command.entry)) }
{
    command
        .arg(frames(alloc))?
        .arg(json(alloc))?
        .arg(quiet(alloc))?
        .arg(only(alloc))?
        .arg(versions(alloc))?
        .arg(explain(alloc))?
        .arg(summary(alloc))
}

// Adds the options that name files beside those of batches, and the last ones.
fn add_files<'a>(alloc: Global, command: Command<'a>) -> Result<Command<'a>, AllocError>
    ensures app { IfOk result (λ added. app_of added ≡ with_files (app_of command.entry)) }
{
    command
        .arg(check(alloc))?
        .arg(stream(alloc))?
        .arg(replies(alloc))?
        .arg(output(alloc))?
        .arg(summary_to(alloc))?
        .arg(top(alloc))?
        .arg(verbose(alloc))
}

fn capacity<'a>(alloc: Global) -> Arg<'a>
    ensures rule { rule_of result ≡ capacity_rule }
    ensures local { result.global ≡ false }
{
    let parser = ValueParser::unsigned(1, MAX_CAPACITY as u64);
    number(alloc, "capacity", "16", parser).help(
        "Batches, or answers, that a lane holds at most, from 1 to 1024",
    )
}

fn window<'a>(alloc: Global) -> Arg<'a>
    ensures rule { rule_of result ≡ window_rule }
    ensures local { result.global ≡ false }
{
    let parser = ValueParser::signed(1, MAX_WINDOW);
    number(alloc, "window", "5000000", parser).help(
        "Versions that the resolver looks back, from 1 to 1099511627776",
    )
}

fn limit<'a>(alloc: Global) -> Arg<'a>
    ensures rule { rule_of result ≡ limit_rule }
    ensures local { result.global ≡ false }
{
    let parser = ValueParser::unsigned(1, MAX_LIMIT as u64);
    number(alloc, "limit", "1000000", parser).help(
        "Boundaries that the conflict set keeps at most, from 1 to 16777216",
    )
}

fn report_all<'a>(alloc: Global) -> Arg<'a>
    ensures rule { rule_of result ≡ report_all_rule }
    ensures local { result.global ≡ false }
{
    flag(alloc, "report-all").help(
        "Resolves every transaction as if it asked for its conflicting read ranges",
    )
}

fn resolvers<'a>(alloc: Global) -> Arg<'a>
    ensures rule { rule_of result ≡ resolvers_rule }
    ensures local { result.global ≡ false }
{
    let parser = ValueParser::unsigned(1, MAX_RESOLVERS as u64);
    number(alloc, "resolvers", "1", parser).help(
        "Resolvers, each with a shard of the keys and its own threads, from 1 to 16",
    )
}

fn split_points<'a>(alloc: Global) -> Arg<'a>
    ensures rule { rule_of result ≡ split_points_rule }
    ensures local { result.global ≡ false }
{
    valued(alloc, "split-points", "POINTS").help(
        "With --resolvers, a file of the keys between their shards, one per line",
    )
}

fn frames<'a>(alloc: Global) -> Arg<'a>
    ensures rule { rule_of result ≡ frames_rule }
    ensures local { result.global ≡ false }
{
    flag(alloc, "frames").help("Prints each reply as its frame in hexadecimal, instead of words")
}

fn json<'a>(alloc: Global) -> Arg<'a>
    ensures rule { rule_of result ≡ json_rule }
    ensures local { result.global ≡ false }
{
    flag(alloc, "json").help("Prints each answer as a line of JSON")
}

fn quiet<'a>(alloc: Global) -> Arg<'a>
    ensures rule { rule_of result ≡ quiet_rule }
    ensures local { result.global ≡ false }
{
    flag(alloc, "quiet").help("Prints no lines of answers")
}

fn only<'a>(alloc: Global) -> Arg<'a>
    ensures rule { rule_of result ≡ only_rule }
    ensures local { result.global ≡ false }
{
    valued(alloc, "only", "VERDICT").help(
        "Prints only replies that have this verdict: committed, conflict or tooold",
    )
}

fn versions<'a>(alloc: Global) -> Arg<'a>
    ensures rule { rule_of result ≡ versions_rule }
    ensures local { result.global ≡ false }
{
    valued(alloc, "versions", "A..B").help(
        "Prints only versions from A to below B; each can be omitted",
    )
}

fn explain<'a>(alloc: Global) -> Arg<'a>
    ensures rule { rule_of result ≡ explain_rule }
    ensures local { result.global ≡ false }
{
    flag(alloc, "explain").help("Prints with each line why its transactions were rejected")
}

fn summary<'a>(alloc: Global) -> Arg<'a>
    ensures rule { rule_of result ≡ summary_rule }
    ensures local { result.global ≡ false }
{
    flag(alloc, "summary").help(
        "Prints a summary instead of the answers: per proxy, of all, and of the resolver",
    )
}

fn check<'a>(alloc: Global) -> Arg<'a>
    ensures rule { rule_of result ≡ check_rule }
    ensures local { result.global ≡ false }
{
    valued(alloc, "check", "REPLIES")
        .action(ArgAction::Append)
        .help("Compares with the reply frames of another resolver; once per FILE, in order")
}

fn stream<'a>(alloc: Global) -> Arg<'a>
    ensures rule { rule_of result ≡ stream_rule }
    ensures local { result.global ≡ false }
{
    flag(alloc, "stream").help("Prints each answer as it comes, in the order of each proxy")
}

fn replies<'a>(alloc: Global) -> Arg<'a>
    ensures rule { rule_of result ≡ replies_rule }
    ensures local { result.global ≡ false }
{
    valued(alloc, "replies", "OUT")
        .action(ArgAction::Append)
        .help("With --stream, writes the records of answers to a file; once per FILE, in order")
}

fn output<'a>(alloc: Global) -> Arg<'a>
    ensures rule { rule_of result ≡ output_rule }
    ensures local { result.global ≡ false }
{
    valued(alloc, "output", "FILE")
        .short('o')
        .help("Writes the output to a file instead of standard output")
}

fn summary_to<'a>(alloc: Global) -> Arg<'a>
    ensures rule { rule_of result ≡ summary_to_rule }
    ensures local { result.global ≡ false }
{
    valued(alloc, "summary-to", "FILE").help("Writes a summary to a file, beside the answers")
}

fn top<'a>(alloc: Global) -> Arg<'a>
    ensures rule { rule_of result ≡ top_rule }
    ensures local { result.global ≡ false }
{
    valued(alloc, "top", "N")
        .value_parser(ValueParser::unsigned(1, MAX_TOP as u64))
        .help("With --summary, lists the N ranges that conflict most, from 1 to 1000")
}

fn verbose<'a>(alloc: Global) -> Arg<'a>
    ensures rule { rule_of result ≡ verbose_rule }
    ensures local { result.global ≡ false }
{
    flag(alloc, "verbose").help(
        "Adds a line to a failure, or if all batches are held: what was found and what to do",
    )
}

fn file<'a>(alloc: Global) -> Arg<'a>
    ensures rule { rule_of result ≡ file_rule }
    ensures local { result.global ≡ false }
{
    words(alloc, "FILE").help(
        "Files of batch frames, from 1 to 64; file p is that of proxy p, - is standard input",
    )
}
