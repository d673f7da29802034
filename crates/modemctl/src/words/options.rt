//! The options of numbers, and what all options are made by.
ghost use Rattle.std.specs.Prelude.{◌≡◌, Some, false, pos, true};
ghost use Rattle.clap.specs.Words.{new_rule, rule_of};
ghost use Rattle.clap.specs.declared.builder.ArgAction.TheVariants.{Set, SetTrue};
ghost use Rattle.clap.specs.declared.builder.ValueParser.TheVariants.{Signed};
ghost use Rattle.modemctl.specs.Words.{callers_rule, cut_rule, n1_rule};

use clap::builder::ValueParser;
use clap::{Arg, ArgAction};
use std::alloc::Global;

/// An option with a value, which is a text.
pub fn text_option<'a>(
    alloc: Global,
    name: &'a str,
    value: &'a str,
    help: &'a str,
    action: ArgAction,
) -> Arg<'a>
    ensures rule { rule_of result
        ≡ record (new_rule name.entry.now) { long = Some name.entry.now; action = Some action; value_names = 1 } }
    ensures own { result.global ≡ false }
{
    Arg::new(alloc, name)
        .long(name)
        .value_name(value)
        .help(help)
        .action(action)
}

/// An option whose value is a number from `least` to `most`.
pub fn number_option<'a>(
    alloc: Global,
    name: &'a str,
    value: &'a str,
    help: &'a str,
    least: u16,
    most: u16,
) -> Arg<'a>
    ensures rule { rule_of result ≡ record (new_rule name.entry.now) {
      long = Some name.entry.now;
      action = Some Set;
      value_names = 1;
      parser = Some (Signed (pos least) (pos most));
    } }
    ensures own { result.global ≡ false }
{
    let parser = ValueParser::signed(i64::from(least), i64::from(most));
    text_option(alloc, name, value, help, ArgAction::Set).value_parser(parser)
}

/// An option without a value.
pub fn flag_option<'a>(alloc: Global, name: &'a str, help: &'a str) -> Arg<'a>
    ensures rule { rule_of result
        ≡ record (new_rule name.entry.now) { long = Some name.entry.now; action = Some SetTrue } }
    ensures own { result.global ≡ false }
{
    Arg::new(alloc, name)
        .long(name)
        .help(help)
        .action(ArgAction::SetTrue)
}

/// A word that has to be there.
pub fn needed_word<'a>(alloc: Global, name: &'a str, value: &'a str, help: &'a str) -> Arg<'a>
    ensures rule { rule_of result
        ≡ record (new_rule name.entry.now) { action = Some Set; value_names = 1; required = true } }
    ensures own { result.global ≡ false }
{
    Arg::new(alloc, name)
        .value_name(value)
        .help(help)
        .required(true)
        .action(ArgAction::Set)
}

/// The option `--n1`.
pub fn n1_option<'a>(alloc: Global) -> Arg<'a>
    ensures rule { rule_of result ≡ n1_rule }
    ensures own { result.global ≡ false }
{
    number_option(
        alloc,
        "n1",
        "N",
        "Octets of information that a frame may have, 31 to 32767",
        31,
        32767,
    )
    .default_value("31")
}

/// The option `--callers`.
pub fn callers_option<'a>(alloc: Global) -> Arg<'a>
    ensures rule { rule_of result ≡ callers_rule }
    ensures own { result.global ≡ false }
{
    number_option(
        alloc,
        "callers",
        "N",
        "Callers, each in a thread of its own, 1 to 8",
        1,
        8,
    )
    .default_value("2")
}

/// The option `--cut`.
pub fn cut_option<'a>(alloc: Global) -> Arg<'a>
    ensures rule { rule_of result ≡ cut_rule }
    ensures own { result.global ≡ false }
{
    number_option(
        alloc,
        "cut",
        "K",
        "Octets that the line has room for each way, 1 to 4096",
        1,
        4096,
    )
    .default_value("64")
}
