//! The input of a bench: a line for each command.
ghost use Rattle.std.specs.Prelude.{◌≡◌, ◌≢◌, ℕ, ◌<◌, ◌≤◌, IfErr, MatchResult};
ghost use Rattle.ctl_text.specs.LineFaults.{HasFault};
ghost use Rattle.ctl_text.specs.Words.{number_text};
ghost use Rattle.ctl_run.specs.Bench.{AreSubmitted, IsNoSubmission, Submits, SubmitsNothing};
ghost use Rattle.ctl_text.specs.Input.{input_lines};
ghost use Rattle.ctl_run.specs.Input.{IsReason};
ghost use Rattle.ctl_run.specs.LineFaults.{SubmissionFault};
ghost use Rattle.ctl_text.specs.declared.expected.Expected.TheVariants as Fault;
ghost use Rattle.ctl_text.specs.declared.refusal.Refusal.TheVariants as Refusal;

use crate::stop::Stop;
use ctl_text::{Expected, Refusal, command_of, first_word, next_line};
use modem_bench::Submission;
use std::alloc::Global;

/// The number of a caller in decimal: below the number of callers.
fn caller_of(callers: u8, word: &[u8]) -> Result<u8, Refusal>
    requires { callers ≤ 8 }
    ensures { MatchResult result
        (λ caller. (caller < callers) × (word.now ≡ number_text caller))
        (λ why. (why ≡ Refusal.Bad Fault.Caller) × ((n : ℕ) → n < callers → word.now ≢ number_text n)) }
{
    match word {
        [digit] if digit.is_ascii_digit() && *digit - b'0' < callers => Ok(*digit - b'0'),
        _ => Err(Refusal::Bad(Expected::Caller)),
    }
}

/// A line that isn't empty.
fn submission_of(alloc: Global, callers: u8, line: &[u8]) -> Result<Submission, Refusal>
    requires { callers ≤ 8 }
    ensures says { MatchResult result (Submits callers line.now)
        (λ why. why ≢ Refusal.NoMemory → SubmitsNothing callers line.now) }
    ensures fault { IfErr result (HasFault (SubmissionFault callers line.now)) }
{
    let (word, words) = first_word(line);
    let caller = caller_of(callers, word)?;
    let (dlci, line) = command_of(alloc, words)?;
    Ok(Submission { caller, dlci, line })
}

/// What the lines of an input submit. Refusals: the first bad line, with the first part of it that isn't as it must be; NoMemory.
pub fn read_submissions(alloc: Global, callers: u8, input: &[u8]) -> Result<Vec<Submission>, Stop>
    requires { callers ≤ 8 }
    ensures { MatchResult result (λ all. AreSubmitted callers (input_lines input.now) all.items)
        (IsReason (IsNoSubmission callers) (SubmissionFault callers) (input_lines input.now)) }
{
    let mut all = Vec::new(alloc);
    let mut place = 0;
    let mut left = input;
    while let Some((line, rest)) = next_line(left) {
        left = rest;
        place += 1;
        if line.is_empty() {
            continue;
        }
        match submission_of(alloc, callers, line) {
            Ok(submission) => all.push(submission)?,
            Err(refusal) => return Err(Stop::at_line(place, refusal)),
        }
    }
    Ok(all)
}
