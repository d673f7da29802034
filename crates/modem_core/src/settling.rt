//! Reads a frame in place, and settles it once nothing can fail any more. Want of memory leaves the lane, and the lines that are
//! heard, as they were.
ghost use Rattle.std.specs.Prelude.{◌≡◌, ◌≤◌, ◌&&◌, ℕ, List, Option, None, length, is_some, is_none, IfOk, IfSome, OnOk, OnErr};
ghost use Rattle.modem_history.specs.Acts.{Act as Happening};
ghost use Rattle.at_text.specs.InPlace.{Grows, lines_so_far};
ghost use Rattle.at_text.specs.OpenWindow.{OpenWindow};
ghost use Rattle.at_text.specs.UnderWay.{window_of};
ghost use Rattle.at_text.specs.Runs.{LineRun, kept_in, LeadsBack};
ghost use Rattle.modem_queues.specs.declared.asker.Asker.{Asker};
ghost use Rattle.modem_core.specs.Reports.{reading_of, ReadsAll};
ghost use Rattle.modem_core.specs.Settling.{said_acts, settled, settled_lane, with_whole, Stands, StartsWith};

use crate::lane::Lane;
use crate::reports::{Reading, keep_rest, read_lines};
use at_text::{AnswerLines, LineRun, UnderWay};
use modem_desk::Outcome;
use modem_queues::LineRoom;
use std::alloc::AllocError;

/// An answer that is whole: behind how many of the lines that are heard it comes, and its lines.
#[derive(Drop)]
pub(crate) struct Whole {
    pub place: usize,
    pub lines: AnswerLines,
}

/// The outcome of the command whose answer is whole, and behind how many of the lines that are heard it comes.
#[derive(Drop)]
pub(crate) struct Answered {
    pub place: usize,
    pub outcome: Outcome,
}

/// Reads octets in place. Where memory is wanted, there is a way back.
fn read_all<P: LineRoom>(
    reading: &Reading<'_>,
    octets: &[u8],
    line: &mut LineRun,
    under_way: &mut UnderWay,
    answer: &mut Option<usize>,
    lines: &mut P,
) -> Result<(), AllocError>
    requires { answer.old ≡ None }
    ensures read { OnOk result ((owner : Option Asker) → ReadsAll (reading_of owner reading.now) octets.now
        (settled owner (kept_in line.old) (window_of reading.now.command.now under_way.old) None (P.heard lines.old))
        (settled owner (kept_in line.new) (window_of reading.now.command.now under_way.new) answer.new (P.heard lines.new))) }
    ensures stands { OnOk result (Stands answer.new (window_of reading.now.command.now under_way.new) (P.heard lines.new)) }
    ensures grows { Grows (window_of reading.now.command.now under_way.old) (window_of reading.now.command.now under_way.new) }
    ensures back { OnErr result ((was : LineRun) → LeadsBack was line.old → LeadsBack was line.new) }
    ensures begins { OnErr result ((was : List Happening) → StartsWith was (P.heard lines.old) → StartsWith was (P.heard lines.new)) }
{
    let count = read_lines(reading, octets, line, under_way, answer, lines)?;
    keep_rest(line, &octets[count..]);
    Ok(())
}

impl Lane {
    /// The lines of an answer that is whole leave the window: its command is under way no more.
    fn settle(&mut self, answer: Option<usize>) -> Option<Whole>
        ensures lane { self.new ≡ settled_lane answer self.old }
        ensures some { is_some result ≡ is_some answer }
        ensures acts { (owner : Option Asker) (command : List ℕ) (heard : List Happening) → with_whole owner result heard
            ≡ said_acts owner (lines_so_far (window_of command self.old.under_way)) answer heard }
        ensures within { (window : Option OpenWindow) (heard : List Happening) → Stands answer window heard
            → IfSome result (λ whole. whole.place ≤ length heard) }
    {
        let place = answer?;
        let lines = self.under_way.close();
        Some(Whole { place, lines })
    }

    /// Reads octets: the lines that are heard go behind the others. Gives the answer that is whole by them, if one is: its command
    /// is under way no more. Want of memory leaves the lane and the lines as they were.
    pub(crate) fn read<P: LineRoom>(
        &mut self,
        reading: &Reading<'_>,
        octets: &[u8],
        lines: &mut P,
    ) -> Result<Option<Whole>, AllocError>
        ensures read { IfOk result (λ whole. (owner : Option Asker) → ReadsAll (reading_of owner reading.now) octets.now (record {
          kept = self.old.kept;
          window = window_of reading.now.command.now self.old.under_way;
          acts = P.heard lines.old;
        }) (record {
          kept = self.new.kept;
          window = window_of reading.now.command.now self.new.under_way;
          acts = with_whole owner whole (P.heard lines.new);
        })) }
        ensures held { self.new.held ≡ self.old.held }
        ensures done { IfOk result (λ whole. is_some whole ≡ (is_some self.old.under_way && is_none self.new.under_way)) }
        ensures within { IfOk result (λ whole. IfSome whole (λ w. w.place ≤ length (P.heard lines.new))) }
        ensures err { OnErr result (self.new ≡ self.old) }
        ensures unheard { OnErr result (P.heard lines.new ≡ P.heard lines.old) }
    {
        let line_mark = self.line.mark();
        let mark = self.under_way.mark();
        let count = lines.len();
        let mut answer = None;
        match read_all(
            reading,
            octets,
            &mut self.line,
            &mut self.under_way,
            &mut answer,
            lines,
        ) {
            Ok(()) => Ok(self.settle(answer)),
            Err(why) => {
                self.line.go_back(line_mark);
                self.under_way.go_back(mark);
                lines.truncate(count);
                Err(why)
            }
        }
    }
}
