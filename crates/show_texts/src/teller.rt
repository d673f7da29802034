//! Tells what happened on a line, item by item.
ghost use Rattle.std.specs.Prelude.{◌≡◌, ◌≢◌, ◌∷◌, ◌++◌, [], ℕ, List, length, replicate, map, option_map, IfOk, OnOk};
ghost use Rattle.std.specs.String.{string_bytes};
ghost use Rattle.mux_frame.specs.Frames.{frame_of, kept_frame};
ghost use Rattle.mux_frame.specs.Reading.{Reads};
ghost use Rattle.mux_capture.specs.Passing.{Caught, Passed};
ghost use Rattle.modem_show.specs.Asking.{answered_kind};
ghost use Rattle.modem_show.specs.Judging.{WatchFits};
ghost use Rattle.modem_show.specs.Ways.{caught};
ghost use Rattle.show_texts.specs.Tallies.{no_tally};
ghost use Rattle.show_texts.specs.Telling.{Framed, TellerFits, Tells, data_in, setting_of, told_by};

use crate::complaint::{either, has_fault, push_faults};
use crate::event::push_event;
use crate::line::are_wrong;
use crate::tally::Tally;
use at_text::Dialect;
use modem_show::{Faults, Talks, Told, Watcher};
use mux_capture::{Direction, Stamp};
use mux_frame::{Dlci, FrameView, Kind};
use std::alloc::{AllocError, Global};
use std::marker::Model;

/// Tells what happened on a line. It takes the frames that passed, and octets that read as no frame, in their order, and writes a text of
/// lines. What it keeps grows with the frames that ask and wait for an answer, and with the text until that is taken.
#[derive(Drop)]
pub struct Teller {
    pub(crate) alloc: Global,
    pub(crate) watcher: Watcher,
    pub(crate) talks: Talks,
    pub(crate) tallies: Vec<Tally>,
    pub(crate) text: String,
    pub(crate) wrong: bool,
}

impl Model for Teller {
    ghost use Rattle.std.specs.Prelude.{◌≡◌, length};
    ghost use Rattle.std.specs.String.{string_bytes};
    ghost use Rattle.show_texts.specs.Telling.{Teller};

    ghost Value = { Teller };

    ghost view = { λ t. record {
      watch = t.watcher;
      talks = t.talks;
      tallies = t.tallies.items;
      text = string_bytes t.text;
      is_wrong = t.wrong;
    } };

    ghost invariant = { λ t. length t.tallies.items ≡ 62 };
}

/// Of each connection nothing came.
fn no_tallies(alloc: Global) -> Result<Vec<Tally>, AllocError>
    ensures { IfOk result (λ ts. ts.items ≡ replicate 62 no_tally) }
{
    let mut tallies = Vec::with_capacity(alloc, Dlci::COUNT)?;
    for _ in 0..Dlci::COUNT {
        tallies.push(Tally::NONE)?;
    }
    Ok(tallies)
}

/// The kind of the frame that a frame answers.
fn answered_kind(watcher: &Watcher, direction: Direction, frame: FrameView<'_>) -> Option<Kind>
    ensures { (stamp : Stamp) (line : List Caught) → WatchFits watcher.now line
        → result ≡ answered_kind line (caught stamp direction (frame_of frame.entry)) }
{
    match watcher.answered(direction, frame) {
        Some(ask) => Some(ask.frame().kind),
        None => None,
    }
}

/// The octets of data in a frame.
fn data_in(is_data: bool, frame: FrameView<'_>) -> u64
    ensures { result ≡ data_in is_data (frame_of frame.entry) }
{
    if is_data && matches!(frame.kind, Kind::Uih) && frame.dlci.number() != 0 {
        frame.info.len() as u64
    } else {
        0
    }
}

impl Teller {
    /// Nothing passed. N1 is the most octets of information that a frame may have, and `data_channels` are the connections whose octets
    /// are data and no lines.
    pub fn new(
        alloc: Global,
        n1: u16,
        dialect: Dialect,
        data_channels: Vec<Dlci>,
    ) -> Result<Teller, AllocError>
        ensures setting { IfOk result (λ t. setting_of t
            ≡ record { n1 = n1; rules = dialect; data_channels = data_channels.items }) }
        ensures fits { IfOk result (λ t. TellerFits [] t []) }
    {
        let watcher = Watcher::new(alloc, n1)?;
        let talks = Talks::new(alloc, dialect, data_channels)?;
        let tallies = no_tallies(alloc)?;
        Ok(Teller {
            alloc,
            watcher,
            talks,
            tallies,
            text: String::new(alloc),
            wrong: false,
        })
    }

    /// Takes a frame that passed, and writes what happened with it and what is wrong with it. Where memory is refused nothing is
    /// promised.
    pub fn take_frame(
        &mut self,
        stamp: Stamp,
        direction: Direction,
        frame: FrameView<'_>,
    ) -> Result<(), AllocError>
        ensures { OnOk result (Tells self.old self.new (Framed (caught stamp direction (frame_of frame.entry)))) }
    {
        let answered = answered_kind(&self.watcher, direction, frame);
        let faults = self.watcher.see(stamp, direction, frame)?;
        let mut told = Vec::new(self.alloc);
        self.talks
            .pass(stamp, direction, answered, frame, &mut told)?;
        self.tell(stamp, direction, frame, answered, faults, told.as_slice())
    }

    /// Whether anything was wrong.
    pub fn is_wrong(&self) -> bool
        ensures { result ≡ self.now.is_wrong }
    {
        self.wrong
    }

    /// Writes what is known of a frame, and counts it.
    fn tell(
        &mut self,
        stamp: Stamp,
        direction: Direction,
        frame: FrameView<'_>,
        answered: Option<Kind>,
        faults: Faults,
        told: &[Told],
    ) -> Result<(), AllocError>
        ensures { OnOk result (self.new ≡ told_by self.old stamp direction (frame_of frame.entry) answered faults told.now) }
    {
        let place = usize::from(frame.dlci.number());
        let tally = self.tallies[place];
        let is_data = self.talks.is_data(frame.dlci);
        push_event(
            self.alloc,
            self.talks.dialect(),
            stamp,
            direction,
            answered,
            tally.asked,
            is_data,
            frame,
            told,
            &mut self.text,
        )?;
        push_faults(self.alloc, stamp, direction, faults, frame, &mut self.text)?;
        self.tallies[place] = tally.with_frame(stamp, data_in(is_data, frame), told);
        let wrong = either(has_fault(faults), are_wrong(self.talks.dialect(), told));
        self.wrong = either(self.wrong, wrong);
        Ok(())
    }
}
