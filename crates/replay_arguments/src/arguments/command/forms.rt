//! The forms of an argument: an option with or without a value, and words.

ghost use Rattle.std.specs.Prelude.{◌≡◌, false};
ghost use Rattle.clap.specs.Words.{rule_of};
ghost use Rattle.replay_arguments.specs.Command.{flag_rule, number_rule, valued_rule, words_rule};

use clap::builder::ValueParser;
use clap::{Arg, ArgAction};
use std::alloc::Global;

/// An option without a value.
pub fn flag<'a>(alloc: Global, name: &'a str) -> Arg<'a>
    ensures rule { rule_of result ≡ flag_rule name.entry.now }
    ensures local { result.global ≡ false }
{
    Arg::new(alloc, name).long(name).action(ArgAction::SetTrue)
}

/// An option with a value.
pub fn valued<'a>(alloc: Global, name: &'a str, value: &'a str) -> Arg<'a>
    ensures rule { rule_of result ≡ valued_rule name.entry.now }
    ensures local { result.global ≡ false }
{
    Arg::new(alloc, name).long(name).value_name(value)
}

/// An option `--name N`.
pub fn number<'a>(
    alloc: Global,
    name: &'a str,
    default: &'a str,
    parser: ValueParser<'a>,
) -> Arg<'a>
    ensures rule { rule_of result ≡ number_rule name.entry.now default.entry.now parser.entry }
    ensures local { result.global ≡ false }
{
    valued(alloc, name, "N")
        .default_value(default)
        .value_parser(parser)
}

/// One word or more.
pub fn words<'a>(alloc: Global, name: &'a str) -> Arg<'a>
    ensures rule { rule_of result ≡ words_rule name.entry.now }
    ensures local { result.global ≡ false }
{
    Arg::new(alloc, name)
        .action(ArgAction::Append)
        .required(true)
}
