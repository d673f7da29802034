//! The file of `sim`'s own answers.
ghost use Rattle.std.specs.Prelude.{◌≡◌, ℕ, ◌<◌, ◌≤◌, ◌++◌, IfErr, IfOk, List, OnOk, Option, Some, codes, false, true};
ghost use Rattle.std.specs.Fmt.{decimal};
ghost use Rattle.clap.specs.Words.{first_value, found_of, rule_of};
ghost use Rattle.ctl_text.specs.LineFaults.{bad_line};
ghost use Rattle.ctl_text.specs.Writing.{IsBegun};
ghost use Rattle.modemctl.specs.Benches.{AreOwn};
ghost use Rattle.modemctl.specs.Files.{IsNoText};
ghost use Rattle.modemctl.specs.Sims.{IsOfAnswers, SaysBadAnswer, answers_line};
ghost use Rattle.modemctl.specs.Words.{answers_rule};

use crate::words::file_faults::refuse_text;
use crate::words::options::text_option;
use crate::words::text_files::{TextFault, TextFiles};
use clap::{Arg, ArgAction, ArgMatches};
use ctl_run::{AnswerPart, AnswersStop, Stop, answers_from};
use ctl_text::{put_line, say_line};
use itoa::Buffer;
use modem_sim::OwnAnswers;
use std::alloc::Global;
use std::io::{ErrorKind, Write};

/// The option `--answers`.
pub fn answers_option<'a>(alloc: Global) -> Arg<'a>
    ensures rule { rule_of result ≡ answers_rule }
    ensures own { result.global ≡ false }
{
    text_option(
        alloc,
        "answers",
        "FILE",
        "Answers of your own: a line for each, as: AT+QGPS? => +QGPS: 0 | OK",
        ArgAction::Set,
    )
}

/// Why a file of answers gives none.
#[derive(Clone, Copy)]
pub enum AnswersFault {
    /// It can't be opened.
    Closed(ErrorKind),
    /// It can't be read, what it has is bad, or memory was refused.
    Stopped(AnswersStop),
}

/// The answers of the file of this path.
fn answers_at<R: TextFiles>(rt: &R, alloc: Global, path: &str) -> Result<OwnAnswers, AnswersFault>
    ensures given { IfOk result (AreOwn (R.text_of rt.now) (Some path.now)) }
    ensures refused { IfErr result (IsOfAnswers (R.text_of rt.now path.now)) }
{
    let mut file = match rt.open_text(path) {
        Ok(file) => file,
        Err(error) => return Err(AnswersFault::Closed(error.kind())),
    };
    match answers_from(alloc, &mut file) {
        Ok(answers) => Ok(answers),
        Err(stop) => Err(AnswersFault::Stopped(stop)),
    }
}

/// Names a bad line of a file of answers, and on a second line says what has to stand there.
fn say_bad_answer<E: Write>(faults: &mut E, place: u64, part: AnswerPart)
    ensures { IsBegun (E.contents faults.old) (E.contents faults.new)
        (bad_line (decimal place) ++ answers_line part) }
{
    let mut digits = Buffer::new();
    if put_line(faults, "", "bad line ", digits.format(place)) {
        say_line(faults, "", "the answers: ", part.reason());
    }
}

/// Says why the file of this path gives no answers, with the reason on a second line, and gives the status.
fn refuse_answers<E: Write>(alloc: Global, faults: &mut E, path: &str, fault: AnswersFault) -> u8
    ensures some { 0 < result }
    ensures status { result ≤ 2 }
    ensures said { result ≡ 1 → IsNoText true (codes "answers") (Some path.now) (E.contents faults.old) (E.contents faults.new) result }
    ensures told { result ≡ 2 → (texts : List ℕ → Option (List ℕ)) → IsOfAnswers (texts path.now) fault
        → SaysBadAnswer texts (Some path.now) (E.contents faults.old) (E.contents faults.new) }
{
    match fault {
        AnswersFault::Stopped(AnswersStop::BadLine(place, part)) => {
            say_bad_answer(faults, place, part);
            2
        }
        AnswersFault::Stopped(AnswersStop::NoMemory) => {
            let fault = TextFault::Stopped(Stop::NoMemory);
            refuse_text(alloc, faults, "answers", path, fault, true)
        }
        AnswersFault::Stopped(AnswersStop::Input) => {
            let fault = TextFault::Stopped(Stop::Input);
            refuse_text(alloc, faults, "answers", path, fault, true)
        }
        AnswersFault::Closed(kind) => {
            let fault = TextFault::Closed(kind);
            refuse_text(alloc, faults, "answers", path, fault, true)
        }
    }
}

/// The answers of the file of this path. Where it gives none it says why, with the reason on a second line, and gives the status.
fn answers_by<R: TextFiles, E: Write>(
    rt: &R,
    alloc: Global,
    path: &str,
    faults: &mut E,
) -> Result<OwnAnswers, u8>
    ensures given { IfOk result (AreOwn (R.text_of rt.now) (Some path.now)) }
    ensures silent { OnOk result (faults.new ≡ faults.old) }
    ensures bad { IfErr result (λ status. (0 < status) × (status ≤ 2)) }
    ensures refused { IfErr result (λ status. status ≡ 1 → IsNoText true (codes "answers") (Some path.now) (E.contents faults.old) (E.contents faults.new) status) }
    ensures told { IfErr result (λ status. status ≡ 2
        → SaysBadAnswer (R.text_of rt.now) (Some path.now) (E.contents faults.old) (E.contents faults.new)) }
{
    match answers_at(rt, alloc, path) {
        Ok(answers) => Ok(answers),
        Err(fault) => Err(refuse_answers(alloc, faults, path, fault)),
    }
}

/// The answers of the file that the words name; none where they name none. Where it gives none it says why, and gives the status.
pub fn answers_of<R: TextFiles, E: Write>(
    rt: &R,
    alloc: Global,
    matches: &ArgMatches<'_>,
    faults: &mut E,
) -> Result<OwnAnswers, u8>
    ensures given { IfOk result (AreOwn (R.text_of rt.now) (first_value (found_of matches.now) (codes "answers"))) }
    ensures silent { OnOk result (faults.new ≡ faults.old) }
    ensures bad { IfErr result (λ status. (0 < status) × (status ≤ 2)) }
    ensures refused { IfErr result (λ status. status ≡ 1 → IsNoText true (codes "answers") (first_value (found_of matches.now) (codes "answers"))
        (E.contents faults.old) (E.contents faults.new) status) }
    ensures told { IfErr result (λ status. status ≡ 2 → SaysBadAnswer (R.text_of rt.now) (first_value (found_of matches.now) (codes "answers"))
        (E.contents faults.old) (E.contents faults.new)) }
{
    match matches.get_str("answers") {
        Some(path) => answers_by(rt, alloc, path, faults),
        None => Ok(OwnAnswers::new(alloc)),
    }
}
