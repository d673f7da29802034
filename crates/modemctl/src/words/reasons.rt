//! Whether the reason is said of what goes wrong.
ghost use Rattle.std.specs.Prelude.{◌≡◌, ◌||◌, codes, false};
ghost use Rattle.clap.specs.Words.{first_value, found_of, rule_of};
ghost use Rattle.modemctl.specs.Words.{explain_rule, is_set};

use crate::words::options::flag_option;
use clap::{Arg, ArgMatches};
use std::alloc::Global;

/// The option `--explain`.
pub fn explain_option<'a>(alloc: Global) -> Arg<'a>
    ensures rule { rule_of result ≡ explain_rule }
    ensures own { result.global ≡ false }
{
    flag_option(
        alloc,
        "explain",
        "Say on a second line why a line is bad or what the fault is, as on a terminal",
    )
}

/// Whether the reason is wanted: standard error is a terminal, or the words ask for it.
pub fn wants_reason(matches: &ArgMatches<'_>, terminal: bool) -> bool
    ensures { result ≡ (terminal || is_set (first_value (found_of matches.now) (codes "explain"))) }
{
    terminal || matches!(matches.get_str("explain"), Some("true"))
}
