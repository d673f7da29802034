//! Windows: which lines answer a command, by their place (V.250, 5.2.3 and 5.7.1).
ghost use Rattle.std.specs.Prelude.{Option, ◌≡◌, List, [], ◌∷◌, ◌++◌, ◌↔◌, IsTrue, IsNone, is_none, is_some, IfOk, IfErr, OnOk, OnErr, if◌then◌else◌};
ghost use Rattle.at_text.specs.Dialects.{Dialect as Codes, standard};
ghost use Rattle.at_text.specs.Rules.{dialect_of};
ghost use Rattle.at_text.specs.Windows.{Mark, Begun};
ghost use Rattle.at_text.specs.OpenWindow.{OpenWindow, opened, FitsMarks, Sees, seen_by, after_line};
ghost use Rattle.at_text.specs.InPlace.{lines_so_far, placed_by, after_placed, said_where, left_where, Grows, mark_of, back_at};

use crate::answer_lines::AnswerLines;
use crate::command::{COMMAND_LEN, CommandLine};
use crate::dialect::Dialect;
use crate::error::TextError;
use crate::under_way::{Placed, UnderWay, WindowMark};
use crate::unsolicited::UrcKind;
use arrayvec::ArrayVec;
use std::alloc::Global;
use std::marker::Model;

/// What a line is, where its end stands.
#[derive(Drop, PartialEq, Eq)]
pub enum Seen {
    /// The echo of the command.
    Echo,
    /// A line of the answer, which goes on.
    Kept,
    /// The final code: the answer is whole, and this is all of it.
    Done(AnswerLines),
    /// A line that no command asked for, of this kind.
    Unsolicited(UrcKind),
    /// A line of no kind, outside of every window.
    Other,
}

/// Keeps the text of this command alone.
fn copy_text(kept: &mut ArrayVec<u8, COMMAND_LEN>, line: &CommandLine)
    ensures { kept.new.items ≡ line.now }
{
    kept.clear();
    let _ = kept.try_extend_from_slice(line.text());
}

/// Tells which lines answer the command under way. Contracts see that command, if there is one.
#[derive(Drop)]
pub struct Window {
    /// The text of the command. If none is under way, it counts for nothing.
    command: ArrayVec<u8, COMMAND_LEN>,
    under_way: UnderWay,
    alloc: Global,
}

impl Model for Window {
    ghost use Rattle.std.specs.Prelude.{Option};
    ghost use Rattle.at_text.specs.OpenWindow.{OpenWindow};
    ghost use Rattle.at_text.specs.UnderWay.{window_of};

    ghost Value = { Option OpenWindow };

    ghost view = { λ w. window_of w.command.items w.under_way };
}

impl Window {
    /// A window with no command under way.
    pub fn new(alloc: Global) -> Window
        ensures none { result ≡ None }
        ensures past { (dialect : Codes) → FitsMarks dialect result [] }
    {
        Window {
            command: ArrayVec::new(),
            under_way: UnderWay::new(alloc),
            alloc,
        }
    }

    /// Whether no command is under way.
    pub fn idle(&self) -> bool
        ensures { IsTrue result ↔ IsNone self.now }
    {
        self.under_way.idle()
    }

    /// Begins the window of a command that has wholly been sent. Requires `idle()`.
    pub fn begin(&mut self, line: &CommandLine)
        requires { IsNone self.old }
        ensures opens { self.new ≡ Some (opened line.now) }
        ensures past { (dialect : Codes) (past : List Mark) → FitsMarks dialect self.old past
            → FitsMarks dialect self.new (past ++ Begun line.now ∷ []) }
    {
        copy_text(&mut self.command, line);
        self.under_way.begin();
    }

    /// Forgets the command and what has come of its answer.
    pub fn drop_command(&mut self)
        ensures none { self.new ≡ None }
        ensures past { (dialect : Codes) → FitsMarks dialect self.new [] }
    {
        self.under_way.drop_command();
    }

    /// Says what the next line is, by the standard's codes. Refused with 4 NoMemory, which leaves the window as it was:
    /// the same line can be shown again.
    pub fn see(&mut self, line: &[u8]) -> Result<Seen, TextError>
        ensures seen { IfOk result (λ seen. seen ≡ seen_by standard self.old line.now) }
        ensures after { OnOk result (self.new ≡ after_line standard self.old line.now) }
        ensures past { IfOk result
            (λ seen. (past : List Mark) → FitsMarks standard self.old past
            → Sees standard past line.now seen self.new) }
        ensures refused { IfErr result (λ why. why ≡ TextError.NoMemory) }
        ensures err { OnErr result (self.new ≡ self.old) }
    {
        let standard = Dialect::standard(self.alloc);
        self.see_by(&standard, line)
    }

    /// Says what the next line is by the codes of this dialect, as `see` does by the standard's.
    pub fn see_by(&mut self, dialect: &Dialect, line: &[u8]) -> Result<Seen, TextError>
        ensures seen { IfOk result (λ seen. seen ≡ seen_by (dialect_of dialect.now) self.old line.now) }
        ensures after { OnOk result (self.new ≡ after_line (dialect_of dialect.now) self.old line.now) }
        ensures past { IfOk result
            (λ seen. (past : List Mark) → FitsMarks (dialect_of dialect.now) self.old past
            → Sees (dialect_of dialect.now) past line.now seen self.new) }
        ensures refused { IfErr result (λ why. why ≡ TextError.NoMemory) }
        ensures err { OnErr result (self.new ≡ self.old) }
    {
        let placed = self.place_by(dialect, line)?;
        Ok(self.take_placed(placed))
    }

    /// A copy, which fits the same past. Refused with 4 NoMemory.
    pub fn copy(&self) -> Result<Window, TextError>
        ensures copy { IfOk result (λ copy. copy ≡ self.now) }
        ensures refused { IfErr result (λ why. why ≡ TextError.NoMemory) }
    {
        let under_way = self.under_way.copy()?;
        let mut command = ArrayVec::new();
        let _ = command.try_extend_from_slice(self.command.as_slice());
        Ok(Window {
            command,
            under_way,
            alloc: self.alloc,
        })
    }

    /// Says what the next line is by the codes of this dialect, as `see_by` does. An answer that is whole stays in the window,
    /// which stays open with it: `close` takes it out, and lines behind it may be shown to another window alone. Refused with
    /// 4 NoMemory.
    pub fn place_by(&mut self, dialect: &Dialect, line: &[u8]) -> Result<Placed, TextError>
        ensures placed { IfOk result (λ placed. placed ≡ placed_by (dialect_of dialect.now) self.old line.now) }
        ensures after { OnOk result (self.new ≡ after_placed (dialect_of dialect.now) self.old line.now) }
        ensures said { IfOk result (λ placed. seen_by (dialect_of dialect.now) self.old line.now ≡ said_where placed self.new) }
        ensures left { IfOk result (λ placed. after_line (dialect_of dialect.now) self.old line.now ≡ left_where placed self.new) }
        ensures grows { Grows self.old self.new }
        ensures refused { IfErr result (λ why. why ≡ TextError.NoMemory) }
        ensures err { OnErr result (self.new ≡ self.old) }
    {
        self.under_way
            .place_by(self.command.as_slice(), dialect, line)
    }

    /// Takes the lines so far out. No command is under way then.
    pub fn close(&mut self) -> AnswerLines
        ensures lines { result ≡ lines_so_far self.old }
        ensures none { self.new ≡ None }
    {
        self.under_way.close()
    }

    /// How far the answer has come.
    pub fn mark(&self) -> WindowMark
        ensures { result ≡ mark_of self.now }
    {
        self.under_way.mark()
    }

    /// Forgets the lines since the mark was taken. It takes no memory. After `place_by` alone, however often, the window is as it
    /// was at the mark.
    pub fn go_back(&mut self, mark: WindowMark)
        ensures back { self.new ≡ back_at mark self.old }
        ensures was { (was : Option OpenWindow) → Grows was self.old → mark ≡ mark_of was → self.new ≡ was }
    {
        self.under_way.go_back(mark);
    }

    /// What the line is that was placed. An answer that is whole is taken out.
    fn take_placed(&mut self, placed: Placed) -> Seen
        ensures seen { result ≡ said_where placed self.old }
        ensures after { self.new ≡ left_where placed self.old }
    {
        match placed {
            Placed::Echo => Seen::Echo,
            Placed::Kept => Seen::Kept,
            Placed::Whole => Seen::Done(self.close()),
            Placed::Unsolicited(kind) => Seen::Unsolicited(kind),
            Placed::Other => Seen::Other,
        }
    }
}
