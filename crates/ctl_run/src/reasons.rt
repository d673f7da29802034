//! The second line of what is said of a run that ends without its output: the reason.
ghost use Rattle.std.specs.Prelude.{◌≡◌, ◌++◌, ◌∷◌, [], codes};
ghost use Rattle.ctl_run.specs.Statuses.{cause_number, cause_rest, cause_words, clash_text, dialect_reason, part_words, rule_words, stop_reason_line};
ghost use Rattle.ctl_text.specs.Writing.{IsBegun};

use crate::stop::{DialectFault, Stop};
use at_text::DialectError;
use ctl_text::{Clash, RulePart, say_line};
use itoa::Buffer;
use modem_bench::Cause;
use std::io::Write;

/// Why a rule is refused.
fn rule_words(why: DialectError) -> &'static str
    ensures { result.now ≡ rule_words why }
{
    match why {
        DialectError::TooManyRules => "a dialect has at most 64 rules",
        DialectError::NoText => "a rule has a text",
        DialectError::TextTooLong => "the text of a rule has at most 64 octets",
        DialectError::LineEnd => "the text of a rule has neither CR nor LF",
        DialectError::BadName => "the name of a kind has 1 to 64 of the octets 21 to 7E",
        DialectError::Command => "a line of the rule could be the echo of a command",
        DialectError::Ambiguous => "some line would both end an answer and be unsolicited",
        DialectError::NoMemory => "no memory",
    }
}

/// What has to stand in a line that says no rule.
fn part_words(part: RulePart) -> &'static str
    ensures { result.now ≡ part_words part }
{
    match part {
        RulePart::Word => "no rule: a line begins with final or unsolicited, and a blank",
        RulePart::Form => {
            "no rule: FORM is line, prefix, quoted, report or open-report, and a blank stands behind it"
        }
        RulePart::Name => "no rule: behind TEXT stand a blank and NAME",
    }
}

/// Says what a rule has a line in common with.
fn say_clash<E: Write>(faults: &mut E, found: Option<Clash>)
    ensures { IsBegun (E.contents faults.old) (E.contents faults.new)
        (codes "the dialect: " ++ clash_text found ++ 10 ∷ []) }
{
    match found {
        Some(Clash::Line(number)) => {
            let mut digits = Buffer::new();
            say_line(
                faults,
                "the dialect: some line would both end an answer and be unsolicited, by this rule and that of line ",
                digits.format(number),
                "",
            );
        }
        Some(Clash::Standard(line)) => say_line(
            faults,
            "the dialect: some line would both end an answer and be unsolicited, by this rule and the standard's ",
            line.text(),
            "",
        ),
        None => say_line(
            faults,
            "the dialect: ",
            "some line would both end an answer and be unsolicited",
            "",
        ),
    }
}

/// Says why a line of a dialect is bad.
fn say_dialect<E: Write>(faults: &mut E, fault: DialectFault)
    ensures { IsBegun (E.contents faults.old) (E.contents faults.new)
        (codes "the dialect: " ++ dialect_reason fault ++ 10 ∷ []) }
{
    match fault {
        DialectFault::NoRule(_, part) => say_line(faults, "the dialect: ", part_words(part), ""),
        DialectFault::Refused(_, why) => say_line(faults, "the dialect: ", rule_words(why), ""),
        DialectFault::Clashes(_, found) => say_clash(faults, found),
    }
}

/// Why a bench was given up, up to the number of a connection.
fn cause_words(cause: Cause) -> &'static str
    ensures { result.now ≡ cause_words cause }
{
    match cause {
        Cause::Quiet => "nothing moved in 600 polls in a row",
        Cause::UsedUp => "all polls of the session are made",
        Cause::NotOpened(_) => "connection ",
        Cause::NotStopped => "the multiplexer wasn't ended",
        Cause::OtherOutcomes => "a caller was told outcomes of other requests",
        Cause::NoEnd => "the simulated modem ended in no known way",
    }
}

/// The number of a connection that wasn't opened, in decimal; else nothing.
fn cause_number(cause: Cause, digits: &mut Buffer) -> &str
    ensures { result.now ≡ cause_number cause }
{
    match cause {
        Cause::NotOpened(dlci) => digits.format(dlci.number),
        _ => "",
    }
}

/// What stands behind the number of a connection.
fn cause_rest(cause: Cause) -> &'static str
    ensures { result.now ≡ cause_rest cause }
{
    match cause {
        Cause::NotOpened(_) => " wasn't opened",
        _ => "",
    }
}

/// Says why a bench was given up.
fn say_cause<E: Write>(faults: &mut E, cause: Cause)
    ensures { IsBegun (E.contents faults.old) (E.contents faults.new)
        (cause_words cause ++ cause_number cause ++ cause_rest cause ++ 10 ∷ []) }
{
    let mut digits = Buffer::new();
    let number = cause_number(cause, &mut digits);
    say_line(faults, cause_words(cause), number, cause_rest(cause));
}

/// Says the reason why a run ended, as a line: what has to stand in the bad line, of which file it is, or which cause there was. Says
/// nothing where there is no more to say than the first line did.
#[tactic(auto, using(crate::proofs::outputs::SaidLines::begun_none))]
pub fn say_reason<E: Write>(faults: &mut E, stop: Stop)
    ensures { IsBegun (E.contents faults.old) (E.contents faults.new) (stop_reason_line stop) }
{
    match stop {
        Stop::BadLine(_, why) => say_line(faults, "", "", why.reason()),
        Stop::Dialect(fault) => say_dialect(faults, fault),
        Stop::GaveUp(cause) => say_cause(faults, cause),
        _ => {}
    }
}
