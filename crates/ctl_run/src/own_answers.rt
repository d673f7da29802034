//! The text of a simulated modem's own answers: a line for each.
ghost use Rattle.std.specs.Prelude.{◌≡◌, ◌≢◌, ℕ, ◌<◌, ◌^◌, ◌∷◌, ◌++◌, [], List, None, codes, false, IfOk, MatchOption, MatchResult};
ghost use Rattle.at_text.specs.Commands.{refusal_of};
ghost use Rattle.ctl_text.specs.Input.{input_lines};
ghost use Rattle.ctl_run.specs.AnswerTexts.{AnswersStopBy, AreAnswers, AreLines, GivesAnswers, HasArrow, HasNoArrow, HasNoLine, HasRefusal, IsFirst, IsLast, IsNoFirst, IsNoLast, IsNoText, IsStarred, SaysAnswer, SaysCount, answers_stop, is_skipped, part_text};
ghost use Rattle.ctl_run.specs.declared.own_answers.AnswerRefusal.TheVariants as Refusal;
ghost use Rattle.ctl_run.specs.declared.own_answers.AnswersStop.TheVariants as Stopped;

use crate::input::read_whole;
use crate::steps::number_of;
use crate::stop::Stop;
use at_text::{AnswerLine, CommandLine, Text, TextError};
use ctl_text::{next_line, split_once};
use modem_sim::{OwnAnswer, OwnAnswers, OwnLine, OwnLines, is_line};
use std::alloc::{AllocError, AllocFailed, Global};
use std::io::Read;

/// The first part of a line that isn't as it must be.
#[derive(Clone, Copy, Debug)]
pub enum AnswerPart {
    /// ` =>`.
    Arrow,
    /// COMMAND.
    Command,
    /// The lines of the answer.
    Lines,
}

/// Why a line gives no answer.
#[derive(Clone, Copy)]
pub(crate) enum AnswerRefusal {
    /// This part of it is the first that isn't as it must be.
    Bad(AnswerPart),
    /// A growth was refused.
    NoMemory,
}

/// Why a text gives no answers.
#[derive(Clone, Copy, Debug)]
pub enum AnswersStop {
    /// A growth was refused.
    NoMemory,
    /// The reader failed, or gave no end.
    Input,
    /// This line is bad, counted from 1, and this part of it is the first that isn't as it must be.
    BadLine(u64, AnswerPart),
}

impl AnswerPart {
    /// What has to stand there.
    pub fn reason(self) -> &'static str
        ensures { result.now ≡ part_text self }
    {
        match self {
            AnswerPart::Arrow => "behind a command stand a blank and =>",
            AnswerPart::Command => {
                "a command line is AT or at and octets 20 to 7E, at most 256 in all"
            }
            AnswerPart::Lines => {
                "behind => stands nothing, or lines: a number or none, a blank and 1 to 512 octets, with a blank and a bar between two"
            }
        }
    }
}

impl From<AllocError> for AnswerRefusal {
    ghost from_gives = { λ _ refusal. refusal ≡ Refusal.NoMemory };

    fn from(_error: AllocError) -> AnswerRefusal {
        AnswerRefusal::NoMemory
    }
}

impl<T: Drop> From<AllocFailed<T>> for AnswersStop {
    ghost from_gives = { λ _ stop. stop ≡ Stopped.NoMemory };

    fn from(_error: AllocFailed<T>) -> AnswersStop {
        AnswersStop::NoMemory
    }
}

/// How many more command lines have to come: none where nothing stands there, or a decimal number.
fn count_of(word: &[u8]) -> Option<u64>
    ensures { MatchOption result ((n : ℕ) → n < 2 ^ 64 → SaysCount word.now n → ⊥) (SaysCount word.now) }
{
    if word.is_empty() {
        return Some(0);
    }
    number_of(word)
}

/// The last line of an answer.
fn last_of(alloc: Global, text: &[u8]) -> Result<Option<OwnLine>, AllocError>
    ensures { IfOk result (λ found. MatchOption found (IsNoLast text.now) (IsLast text.now)) }
{
    let Some((word, line)) = split_once(text, b' ') else {
        return Ok(None);
    };
    let Some(after) = count_of(word) else {
        return Ok(None);
    };
    if !is_line(line) {
        return Ok(None);
    }
    let text = Text::from(Vec::from_slice(alloc, line)?);
    let line = AnswerLine { text };
    Ok(Some(OwnLine { after, line }))
}

/// Another line of it, which has a blank behind it.
fn first_of(alloc: Global, text: &[u8]) -> Result<Option<OwnLine>, AllocError>
    ensures { IfOk result (λ found. MatchOption found (IsNoFirst text.now) (IsFirst text.now)) }
{
    match text.strip_suffix(b" ") {
        Some(left) => last_of(alloc, left),
        None => Ok(None),
    }
}

/// The lines behind an arrow, if there are any or it is the end.
fn lines_of(alloc: Global, behind: &[u8]) -> Result<Option<Vec<OwnLine>>, AllocError>
    ensures { IfOk result (λ found. MatchOption found (HasNoLine behind.now) (λ lines. AreLines behind.now lines.items)) }
{
    let mut lines = Vec::new(alloc);
    if behind.is_empty() {
        return Ok(Some(lines));
    }
    let mut left = behind;
    while let Some((text, rest)) = split_once(left, b'|') {
        let Some(line) = first_of(alloc, text)? else {
            return Ok(None);
        };
        lines.push(line)?;
        left = rest;
    }
    let Some(line) = last_of(alloc, left)? else {
        return Ok(None);
    };
    lines.push(line)?;
    Ok(Some(lines))
}

/// A command, and whether lines that go on behind it are meant too.
fn starred(front: &[u8]) -> (&[u8], bool)
    ensures { IsStarred front.now result.0.now result.1 }
{
    match front.strip_suffix(b"*") {
        Some(command) => (command, true),
        None => (front, false),
    }
}

/// A command line, if it is one.
fn command_of(alloc: Global, text: &[u8]) -> Result<Option<Text>, AllocError>
    ensures { IfOk result (λ found. MatchOption found (refusal_of text.now ≢ None) (λ command. (command ≡ text.now) × (refusal_of text.now ≡ None))) }
{
    match CommandLine::new(alloc, text) {
        Ok(line) => Ok(Some(Text::from(Vec::from_slice(alloc, line.text())?))),
        Err(TextError::NoMemory) => Err(AllocError),
        Err(_) => Ok(None),
    }
}

/// What stands before an arrow, and what behind it.
fn split_arrow(line: &[u8]) -> Option<(&[u8], &[u8])>
    ensures { MatchOption result (HasNoArrow line.now) (λ parts. HasArrow line.now parts.0.now parts.1.now) }
{
    let (front, behind) = split_once(line, b'>')?;
    let front = front.strip_suffix(b" =")?;
    Some((front, behind))
}

/// The answer that a line says.
fn answer_of(alloc: Global, line: &[u8]) -> Result<OwnAnswer, AnswerRefusal>
    ensures { MatchResult result (SaysAnswer line.now) (HasRefusal line.now) }
{
    let Some((front, behind)) = split_arrow(line) else {
        return Err(AnswerRefusal::Bad(AnswerPart::Arrow));
    };
    let (text, is_prefix) = starred(front);
    let Some(command) = command_of(alloc, text)? else {
        return Err(AnswerRefusal::Bad(AnswerPart::Command));
    };
    let Some(lines) = lines_of(alloc, behind)? else {
        return Err(AnswerRefusal::Bad(AnswerPart::Lines));
    };
    Ok(OwnAnswer {
        command,
        is_prefix,
        lines: OwnLines::from(lines),
    })
}

/// Whether a line is empty, or a comment.
fn is_skipped(line: &[u8]) -> bool
    ensures { result ≡ is_skipped line.now }
{
    match line {
        [] => true,
        [first, ..] => *first == b'#',
    }
}

/// A line that is bad, at this place, or a want of memory.
fn stop_at(place: u64, refusal: AnswerRefusal) -> AnswersStop
    ensures { result ≡ answers_stop place refusal }
{
    match refusal {
        AnswerRefusal::Bad(part) => AnswersStop::BadLine(place, part),
        AnswerRefusal::NoMemory => AnswersStop::NoMemory,
    }
}

/// The answers of a text, a line each: `COMMAND => LINE | LINE`, or `COMMAND* => LINE | LINE` for all lines that begin with COMMAND.
/// A number directly before the blank of a LINE says how many more command lines have to come. Behind the arrow stands nothing for
/// silence. Empty lines and those that begin with `#` are passed over. Refusals: the first line that says none, with the first part of
/// it that isn't as it must be; NoMemory.
pub fn read_answers(alloc: Global, text: &[u8]) -> Result<OwnAnswers, AnswersStop>
    ensures { MatchResult result (AreAnswers (input_lines text.now)) (IsNoText (input_lines text.now)) }
{
    let mut answers = Vec::new(alloc);
    let mut place = 0;
    let mut left = text;
    while let Some((line, rest)) = next_line(left) {
        left = rest;
        place += 1;
        if is_skipped(line) {
            continue;
        }
        match answer_of(alloc, line) {
            Ok(answer) => answers.push(answer)?,
            Err(refusal) => return Err(stop_at(place, refusal)),
        }
    }
    Ok(OwnAnswers::from(answers))
}

/// The answers of the text that a reader has, to its end. Refusals: the first line that says none, with the first part of it that isn't
/// as it must be; NoMemory; Input, where the reader fails or gives no end.
pub fn answers_from<R: Read>(alloc: Global, input: &mut R) -> Result<OwnAnswers, AnswersStop>
    ensures { MatchResult result (GivesAnswers (R.remaining input.old)) (AnswersStopBy (R.remaining input.old)) }
{
    match read_whole(alloc, input) {
        Ok(text) => read_answers(alloc, text.as_slice()),
        Err(Stop::NoMemory) => Err(AnswersStop::NoMemory),
        Err(_) => Err(AnswersStop::Input),
    }
}
