//! Answers of one's own, which a modem with words gives before it looks into its tables.
ghost use Rattle.std.specs.Prelude.{◌≡◌, ◌++◌, IfOk, OnOk, map, option_map};
ghost use Rattle.at_cmds.specs.Forms.{is_same};
ghost use Rattle.modem_sim.specs.OwnAnswers.{begins_as, due_line, later_of, now_of, own_lines, said_later, said_now, takes, waits_on};
ghost use Rattle.modem_sim.specs.LineSteps.{late_after, late_said};

use at_text::{AnswerLine, Text};
use std::alloc::{AllocError, Global};
use std::marker::Model;

/// Whether two texts are the same, but for the case of letters.
fn is_same(one: &[u8], other: &[u8]) -> bool
    ensures { result ≡ is_same one.now other.now }
{
    one.eq_ignore_ascii_case(other)
}

/// Whether a line begins with a command, but for the case of letters.
fn begins_as(command: &[u8], line: &[u8]) -> bool
    ensures { result ≡ begins_as command.now line.now }
{
    command.len() <= line.len() && is_same(command, &line[..command.len()])
}

/// A line of an answer of one's own.
#[derive(Drop)]
pub struct OwnLine {
    /// How many more command lines have to come. The line is said behind the answer to the last of them, or where that is a `CONNECT`
    /// behind the next; with 0 it is part of the answer itself.
    pub after: u64,
    /// The line.
    pub line: AnswerLine,
}

impl OwnLine {
    /// A copy.
    fn copy(&self) -> Result<OwnLine, AllocError>
        ensures { IfOk result (λ copy. copy ≡ self.now) }
    {
        Ok(OwnLine {
            after: self.after,
            line: self.line.copy()?,
        })
    }

    /// Says it, if no more command lines have to come.
    fn push_now(&self, said: &mut Vec<AnswerLine>) -> Result<(), AllocError>
        ensures { OnOk result (said.new.items ≡ said.old.items ++ now_of self.now) }
    {
        if self.after == 0 {
            said.push(self.line.copy()?)?;
        }
        Ok(())
    }

    /// Keeps it, if more have to come; this was one of them.
    fn push_later(&self, left: &mut Vec<OwnLine>) -> Result<(), AllocError>
        ensures { OnOk result (left.new.items ≡ left.old.items ++ later_of self.now) }
    {
        if self.after > 0 {
            left.push(OwnLine {
                after: self.after - 1,
                line: self.line.copy()?,
            })?;
        }
        Ok(())
    }
}

/// Keeps each, and counts one command line that came, behind whose answer nothing is said.
fn push_waiting(lines: &[OwnLine], out: &mut Vec<OwnLine>) -> Result<(), AllocError>
    ensures { OnOk result (out.new.items ≡ out.old.items ++ map waits_on lines.now) }
{
    for line in lines {
        out.push(OwnLine {
            after: line.after.saturating_sub(1),
            line: line.line.copy()?,
        })?;
    }
    Ok(())
}

/// Keeps lines that are due behind the next answer.
fn push_due(lines: &[AnswerLine], out: &mut Vec<OwnLine>) -> Result<(), AllocError>
    ensures { OnOk result (out.new.items ≡ out.old.items ++ map due_line lines.now) }
{
    for line in lines {
        out.push(OwnLine {
            after: 0,
            line: line.copy()?,
        })?;
    }
    Ok(())
}

fn push_copies(lines: &[OwnLine], out: &mut Vec<OwnLine>) -> Result<(), AllocError>
    ensures { OnOk result (out.new.items ≡ out.old.items ++ lines.now) }
{
    for line in lines {
        out.push(line.copy()?)?;
    }
    Ok(())
}

fn push_said(lines: &[OwnLine], out: &mut Vec<AnswerLine>) -> Result<(), AllocError>
    ensures { OnOk result (out.new.items ≡ out.old.items ++ said_now lines.now) }
{
    for line in lines {
        line.push_now(out)?;
    }
    Ok(())
}

fn push_left(lines: &[OwnLine], out: &mut Vec<OwnLine>) -> Result<(), AllocError>
    ensures { OnOk result (out.new.items ≡ out.old.items ++ said_later lines.now) }
{
    for line in lines {
        line.push_later(out)?;
    }
    Ok(())
}

/// The lines of answers of one's own in their order, which contracts see as a list.
#[derive(Drop)]
pub struct OwnLines {
    lines: Vec<OwnLine>,
}

impl Model for OwnLines {
    ghost use Rattle.std.specs.Prelude.{List};
    ghost use Rattle.modem_sim.specs.declared.own_answers.OwnLine.{OwnLine};

    ghost Value = { List OwnLine };

    ghost view = { λ l. l.lines.items };
}

impl OwnLines {
    ghost use Rattle.std.specs.Prelude.{[]};

    /// None.
    pub(crate) fn new(alloc: Global) -> OwnLines
        ensures { result ≡ [] }
    {
        OwnLines {
            lines: Vec::new(alloc),
        }
    }

    /// Copies of these lines, and of others behind them.
    pub(crate) fn joined(&self, more: &OwnLines) -> Result<OwnLines, AllocError>
        ensures { IfOk result (λ all. all ≡ self.now ++ more.now) }
    {
        let mut lines = Vec::new(*self.lines.allocator());
        push_copies(self.lines.as_slice(), &mut lines)?;
        push_copies(more.lines.as_slice(), &mut lines)?;
        Ok(OwnLines { lines })
    }

    /// A copy of the lines.
    pub(crate) fn copy(&self) -> Result<OwnLines, AllocError>
        ensures { IfOk result (λ copy. copy ≡ self.now) }
    {
        let mut lines = Vec::new(*self.lines.allocator());
        push_copies(self.lines.as_slice(), &mut lines)?;
        Ok(OwnLines { lines })
    }

    /// Says those of them for which no more command lines have to come.
    pub(crate) fn push_now(&self, said: &mut Vec<AnswerLine>) -> Result<(), AllocError>
        ensures { OnOk result (said.new.items ≡ said.old.items ++ said_now self.now) }
    {
        push_said(self.lines.as_slice(), said)
    }

    /// Those that are left for later.
    pub(crate) fn later(&self) -> Result<OwnLines, AllocError>
        ensures { IfOk result (λ left. left ≡ said_later self.now) }
    {
        let mut lines = Vec::new(*self.lines.allocator());
        push_left(self.lines.as_slice(), &mut lines)?;
        Ok(OwnLines { lines })
    }

    /// These lines behind others that are due.
    pub(crate) fn behind(&self, due: &[AnswerLine]) -> Result<OwnLines, AllocError>
        ensures { IfOk result (λ all. all ≡ map due_line due.now ++ self.now) }
    {
        let mut lines = Vec::new(*self.lines.allocator());
        push_due(due, &mut lines)?;
        push_copies(self.lines.as_slice(), &mut lines)?;
        Ok(OwnLines { lines })
    }

    /// A command line came: says those that are due behind its answer, and gives those that are left. Where it put a call through, none is
    /// said, and all are left.
    pub(crate) fn say(
        &self,
        is_through: bool,
        said: &mut Vec<AnswerLine>,
    ) -> Result<OwnLines, AllocError>
        ensures left { IfOk result (λ left. left ≡ late_after is_through self.now) }
        ensures said { OnOk result (said.new.items ≡ said.old.items ++ late_said is_through self.now) }
    {
        if !is_through {
            self.push_now(said)?;
            return self.later();
        }
        let mut lines = Vec::new(*self.lines.allocator());
        push_waiting(self.lines.as_slice(), &mut lines)?;
        Ok(OwnLines { lines })
    }
}

impl From<Vec<OwnLine>> for OwnLines {
    ghost use Rattle.std.specs.Prelude.{◌≡◌};

    ghost from_gives = { λ lines made. made ≡ lines.items };

    fn from(lines: Vec<OwnLine>) -> OwnLines {
        OwnLines { lines }
    }
}

/// An answer of one's own.
#[derive(Drop)]
pub struct OwnAnswer {
    /// The command line that it answers, or the beginning of those that it answers. The case of letters doesn't matter.
    pub command: Text,
    /// Whether lines that go on behind `command` are answered too.
    pub is_prefix: bool,
    /// All that is said to the line, a final code and what follows it included. Nothing is silence.
    pub lines: OwnLines,
}

impl OwnAnswer {
    /// Whether it answers this line.
    fn takes(&self, line: &[u8]) -> bool
        ensures { result ≡ takes self.now line.now }
    {
        if self.is_prefix {
            begins_as(self.command.as_slice(), line)
        } else {
            is_same(self.command.as_slice(), line)
        }
    }

    /// A copy.
    fn copy(&self) -> Result<OwnAnswer, AllocError>
        ensures { IfOk result (λ copy. copy ≡ self.now) }
    {
        Ok(OwnAnswer {
            command: self.command.copy()?,
            is_prefix: self.is_prefix,
            lines: self.lines.copy()?,
        })
    }
}

/// Answers of one's own in their order, which contracts see as a list. Of those that take a line the first counts.
#[derive(Drop)]
pub struct OwnAnswers {
    answers: Vec<OwnAnswer>,
}

impl Model for OwnAnswers {
    ghost use Rattle.std.specs.Prelude.{List};
    ghost use Rattle.modem_sim.specs.declared.own_answers.OwnAnswer.{OwnAnswer};

    ghost Value = { List OwnAnswer };

    ghost view = { λ a. a.answers.items };
}

impl OwnAnswers {
    ghost use Rattle.std.specs.Prelude.{[]};

    /// None.
    pub fn new(alloc: Global) -> OwnAnswers
        ensures { result ≡ [] }
    {
        OwnAnswers {
            answers: Vec::new(alloc),
        }
    }

    /// A copy of the answers.
    pub(crate) fn copy(&self) -> Result<OwnAnswers, AllocError>
        ensures { IfOk result (λ copy. copy ≡ self.now) }
    {
        let mut answers = Vec::with_capacity(*self.answers.allocator(), self.answers.len())?;
        for answer in &self.answers {
            answers.push(answer.copy()?)?;
        }
        Ok(OwnAnswers { answers })
    }

    /// What is said to a line, now and later, if an answer takes it.
    pub(crate) fn lines_for(&self, line: &[u8]) -> Result<Option<OwnLines>, AllocError>
        ensures { IfOk result (λ found. found ≡ own_lines self.now line.now) }
    {
        match self.answers.iter().find(|answer| answer.takes(line)) {
            Some(answer) => Ok(Some(answer.lines.copy()?)),
            None => Ok(None),
        }
    }
}

impl From<Vec<OwnAnswer>> for OwnAnswers {
    ghost use Rattle.std.specs.Prelude.{◌≡◌};

    ghost from_gives = { λ answers made. made ≡ answers.items };

    fn from(answers: Vec<OwnAnswer>) -> OwnAnswers {
        OwnAnswers { answers }
    }
}
