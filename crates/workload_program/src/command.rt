//! The command line as `clap` sees it.

ghost use Rattle.std.specs.Prelude.{◌≡◌, IfOk, false};
ghost use Rattle.clap.specs.Words.{app_of, rule_of};
ghost use Rattle.workload_program.specs.Command.{program_app, word_rule, workload_app};

use clap::{Arg, Command};
use std::alloc::{AllocError, Global};

const EXAMPLE: &str = "Example:\n  workload skiplisttest 100 2500 > batches && replay batches";

/// Returns the command of the program.
pub fn command<'a>(alloc: Global) -> Result<Command<'a>, AllocError>
    ensures app { IfOk result (λ command. app_of command ≡ workload_app) }
{
    program(alloc)
        .arg(word(alloc, "SHAPE", "skiplisttest or points"))?
        .arg(word(alloc, "BATCHES", "How many batches, 1 to 65536"))?
        .arg(word(
            alloc,
            "TRANSACTIONS",
            "How many transactions in each batch, 1 to 2500",
        ))
}

// Returns the command without its words.
fn program<'a>(alloc: Global) -> Command<'a>
    ensures app { app_of result ≡ program_app }
{
    Command::new(alloc, "workload")
        .version("0.2.0")
        .about("Writes the frames of one chain of batches; the same words give the same bytes")
        .after_long_help(EXAMPLE)
}

// A word that is wanted.
fn word<'a>(alloc: Global, name: &'a str, help: &'a str) -> Arg<'a>
    ensures rule { rule_of result ≡ word_rule name.entry.now }
    ensures local { result.global ≡ false }
{
    Arg::new(alloc, name).required(true).help(help)
}
