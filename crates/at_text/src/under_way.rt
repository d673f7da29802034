//! The answer of the command under way, whose text is kept elsewhere (V.250, 5.2.3 and 5.7.1).
ghost use Rattle.std.specs.Prelude.{Option, ◌≡◌, ℕ, List, [], ◌∷◌, ◌++◌, ◌↔◌, IsTrue, IsNone, is_none, Some, IfOk, IfErr, OnOk, OnErr, if◌then◌else◌};
ghost use Rattle.at_text.specs.Dialects.{Dialect as Codes};
ghost use Rattle.at_text.specs.Rules.{dialect_of};
ghost use Rattle.at_text.specs.Windows.{Mark, Begun};
ghost use Rattle.at_text.specs.Seeing.{by_kind};
ghost use Rattle.at_text.specs.OpenWindow.{is_echo, solicited_by, seen_by, after_line};
ghost use Rattle.at_text.specs.InPlace.{lines_so_far, placed_as, placed_by, after_placed, solicited_placed, said_where, left_where, Grows, mark_of, back_at};
ghost use Rattle.at_text.specs.UnderWay.{UnderWay as Answer, unanswered, answered_on, window_with, window_of, FitsUnderWay};

use crate::answer_lines::AnswerLines;
use crate::dialect::Dialect;
use crate::error::TextError;
use crate::unsolicited::UrcKind;
use std::alloc::{AllocError, Global};
use std::marker::Model;
use std::mem;

/// What a line is, where its end stands, while an answer stays in its window.
#[derive(Clone, Copy)]
pub enum Placed {
    /// The echo of the command.
    Echo,
    /// A line of the answer, which goes on.
    Kept,
    /// The final code: the answer is whole, and all of it stands in the window.
    Whole,
    /// A line that no command asked for, of this kind.
    Unsolicited(UrcKind),
    /// A line of no kind, outside of every window.
    Other,
}

/// How far a window's answer had come: its lines, and whether the next line might be the echo.
#[derive(Clone, Copy)]
pub struct WindowMark {
    /// How many lines there were.
    pub lines: usize,
    /// Whether no line but unsolicited ones had come.
    pub fresh: bool,
}

/// What has come of an answer.
#[derive(Drop)]
struct SoFar {
    lines: AnswerLines,
    fresh: bool,
}

impl Model for SoFar {
    ghost use Rattle.at_text.specs.UnderWay.{UnderWay};

    ghost Value = { UnderWay };

    ghost view = { λ s. record { lines = s.lines; fresh = s.fresh } };
}

impl SoFar {
    /// No line.
    fn none(alloc: Global) -> SoFar {
        SoFar {
            lines: AnswerLines::new(alloc),
            fresh: true,
        }
    }

    /// Begins with no line. The list of lines keeps its memory.
    fn begin(&mut self)
        ensures { self.new ≡ unanswered }
    {
        self.lines.clear();
        self.fresh = true;
    }

    /// Takes the lines out.
    fn take_lines(&mut self, alloc: Global) -> AnswerLines
        ensures { result ≡ self.old.lines }
    {
        let mut lines = AnswerLines::new(alloc);
        mem::swap(&mut lines, &mut self.lines);
        lines
    }

    fn is_echo(&self, command: &[u8], line: &[u8]) -> bool
        ensures { result ≡ is_echo (window_with command.now self.now) line.now }
    {
        self.fresh && line == command
    }

    fn keep(&mut self, line: &[u8]) -> Result<(), AllocError>
        ensures ok { OnOk result (self.new ≡ answered_on self.old line.now) }
        ensures err { OnErr result (self.new ≡ self.old) }
    {
        self.lines.push(line)?;
        self.fresh = false;
        Ok(())
    }

    fn copy(&self) -> Result<SoFar, AllocError>
        ensures { IfOk result (λ copy. copy ≡ self.now) }
    {
        let lines = self.lines.copy()?;
        Ok(SoFar {
            lines,
            fresh: self.fresh,
        })
    }
}

/// Tells which lines answer the command under way. It keeps no text of that command: who shows it a line lends the text.
/// Contracts see the answer so far, if a command is under way.
#[derive(Drop)]
pub struct UnderWay {
    /// Whether a command is under way. If not, what stands in `so_far` counts for nothing.
    is_open: bool,
    so_far: SoFar,
    alloc: Global,
}

impl Model for UnderWay {
    ghost use Rattle.std.specs.Prelude.{Option};
    ghost use Rattle.at_text.specs.UnderWay.{UnderWay, under_way_if};

    ghost Value = { Option UnderWay };

    ghost view = { λ u. under_way_if u.is_open u.so_far };
}

impl UnderWay {
    /// No command is under way.
    pub fn new(alloc: Global) -> UnderWay
        ensures none { result ≡ None }
        ensures past { (dialect : Codes) → FitsUnderWay dialect result [] }
    {
        UnderWay {
            is_open: false,
            so_far: SoFar::none(alloc),
            alloc,
        }
    }

    /// Whether no command is under way.
    pub fn idle(&self) -> bool
        ensures { IsTrue result ↔ IsNone self.now }
    {
        !self.is_open
    }

    /// A command has wholly been sent, and is under way. Requires `idle()`.
    pub fn begin(&mut self)
        requires { IsNone self.old }
        ensures opens { self.new ≡ Some unanswered }
        ensures past { (dialect : Codes) (command : List ℕ) (past : List Mark) → FitsUnderWay dialect self.old past
            → FitsUnderWay dialect self.new (past ++ Begun command ∷ []) }
    {
        self.so_far.begin();
        self.is_open = true;
    }

    /// Forgets the command and what has come of its answer.
    pub fn drop_command(&mut self)
        ensures none { self.new ≡ None }
        ensures past { (dialect : Codes) → FitsUnderWay dialect self.new [] }
    {
        self.is_open = false;
        self.so_far.lines.clear();
    }

    /// Says what the next line is by the codes of this dialect, where the command under way has this text. An answer that is
    /// whole stays here: `close` takes it out, and lines behind it may be shown to another alone. Refused with 4 NoMemory.
    pub fn place_by(
        &mut self,
        command: &[u8],
        dialect: &Dialect,
        line: &[u8],
    ) -> Result<Placed, TextError>
        ensures placed { IfOk result (λ placed. placed ≡ placed_by (dialect_of dialect.now) (window_of command.now self.old) line.now) }
        ensures after { OnOk result (window_of command.now self.new ≡ after_placed (dialect_of dialect.now) (window_of command.now self.old) line.now) }
        ensures said { IfOk result (λ placed. seen_by (dialect_of dialect.now) (window_of command.now self.old) line.now
            ≡ said_where placed (window_of command.now self.new)) }
        ensures left { IfOk result (λ placed. after_line (dialect_of dialect.now) (window_of command.now self.old) line.now
            ≡ left_where placed (window_of command.now self.new)) }
        ensures grows { Grows (window_of command.now self.old) (window_of command.now self.new) }
        ensures refused { IfErr result (λ why. why ≡ TextError.NoMemory) }
        ensures err { OnErr result (self.new ≡ self.old) }
    {
        let placed = self.place(command, dialect, line)?;
        Ok(placed)
    }

    /// Takes the lines so far out. No command is under way then.
    pub fn close(&mut self) -> AnswerLines
        ensures lines { (command : List ℕ) → result ≡ lines_so_far (window_of command self.old) }
        ensures none { self.new ≡ None }
    {
        if !self.is_open {
            return AnswerLines::new(self.alloc);
        }
        self.is_open = false;
        self.so_far.take_lines(self.alloc)
    }

    /// How far the answer has come.
    pub fn mark(&self) -> WindowMark
        ensures { (command : List ℕ) → result ≡ mark_of (window_of command self.now) }
    {
        if !self.is_open {
            return WindowMark {
                lines: 0,
                fresh: false,
            };
        }
        WindowMark {
            lines: self.so_far.lines.len(),
            fresh: self.so_far.fresh,
        }
    }

    /// Forgets the lines since the mark was taken. It takes no memory. After `place_by` alone, however often, all is as it
    /// was at the mark.
    pub fn go_back(&mut self, mark: WindowMark)
        ensures back { (command : List ℕ) → window_of command self.new ≡ back_at mark (window_of command self.old) }
        ensures was { (command : List ℕ) (was : Option Answer) → Grows (window_of command was) (window_of command self.old)
            → mark ≡ mark_of (window_of command was) → self.new ≡ was }
    {
        self.shorten(mark);
    }

    /// A copy. Refused with 4 NoMemory.
    pub(crate) fn copy(&self) -> Result<UnderWay, TextError>
        ensures copy { IfOk result (λ copy. copy ≡ self.now) }
        ensures refused { IfErr result (λ why. why ≡ TextError.NoMemory) }
    {
        if !self.is_open {
            return Ok(UnderWay::new(self.alloc));
        }
        let so_far = self.so_far.copy()?;
        Ok(UnderWay {
            is_open: true,
            so_far,
            alloc: self.alloc,
        })
    }

    fn shorten(&mut self, mark: WindowMark)
        ensures { (command : List ℕ) → window_of command self.new ≡ back_at mark (window_of command self.old) }
    {
        if self.is_open {
            self.so_far.lines.truncate(mark.lines);
            self.so_far.fresh = mark.fresh;
        }
    }

    fn place(
        &mut self,
        command: &[u8],
        dialect: &Dialect,
        line: &[u8],
    ) -> Result<Placed, AllocError>
        ensures placed { IfOk result (λ placed. placed ≡ placed_by (dialect_of dialect.now) (window_of command.now self.old) line.now) }
        ensures after { OnOk result (window_of command.now self.new ≡ after_placed (dialect_of dialect.now) (window_of command.now self.old) line.now) }
        ensures err { OnErr result (self.new ≡ self.old) }
    {
        self.place_kind(dialect.unsolicited_of(line), command, dialect, line)
    }

    /// What a line of this kind is, or of none.
    fn place_kind(
        &mut self,
        kind: Option<UrcKind>,
        command: &[u8],
        dialect: &Dialect,
        line: &[u8],
    ) -> Result<Placed, AllocError>
        ensures placed { IfOk result (λ placed. placed
            ≡ placed_as (by_kind kind (solicited_by (dialect_of dialect.now) (window_of command.now self.old) line.now))) }
        ensures after { OnOk result (window_of command.now self.new
            ≡ (if is_none kind then solicited_placed (window_of command.now self.old) line.now else window_of command.now self.old)) }
        ensures err { OnErr result (self.new ≡ self.old) }
    {
        match kind {
            Some(kind) => Ok(Placed::Unsolicited(kind)),
            None => self.place_solicited(command, dialect, line),
        }
    }

    /// What a line of no kind is. The echo is looked at before the final code: no command line is a final code.
    fn place_solicited(
        &mut self,
        command: &[u8],
        dialect: &Dialect,
        line: &[u8],
    ) -> Result<Placed, AllocError>
        ensures placed { IfOk result (λ placed. placed
            ≡ placed_as (solicited_by (dialect_of dialect.now) (window_of command.now self.old) line.now)) }
        ensures after { OnOk result (window_of command.now self.new ≡ solicited_placed (window_of command.now self.old) line.now) }
        ensures err { OnErr result (self.new ≡ self.old) }
    {
        if !self.is_open {
            return Ok(Placed::Other);
        }
        let so_far = &mut self.so_far;
        if so_far.is_echo(command, line) {
            so_far.fresh = false;
            return Ok(Placed::Echo);
        }
        so_far.keep(line)?;
        if dialect.is_final(line) {
            Ok(Placed::Whole)
        } else {
            Ok(Placed::Kept)
        }
    }
}
