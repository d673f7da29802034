//! What is said on all connections.
ghost use Rattle.std.specs.Prelude.{◌≡◌, ◌∷◌, ◌++◌, ◌==◌, [], List, length, replicate, is_some, IfOk, OnOk};
ghost use Rattle.std.specs.List.{list_any};
ghost use Rattle.mux_frame.specs.Frames.{frame_of};
ghost use Rattle.mux_capture.specs.Passing.{Caught};
ghost use Rattle.at_text.specs.Rules.{dialect_of};
ghost use Rattle.modem_show.specs.Ways.{caught};
ghost use Rattle.modem_show.specs.Asking.{answered_kind};
ghost use Rattle.modem_show.specs.Talking.{TalksAfter, TalksFit, closes_all, has_text, is_close, is_turn_on, silence, talk_at, talk_of, told_at, told_in};

use crate::message::{answers_close_down, is_data_frame, is_kind, is_on};
use crate::talk::Talk;
use crate::told::Told;
use at_text::Dialect;
use mux_capture::{Direction, Stamp};
use mux_frame::{Dlci, FrameView, Kind};
use std::alloc::{AllocError, Global};
use std::marker::Model;

/// Tells the lines of each connection, once each: commands, and lines of the modem with what they are. Octets of data connections aren't
/// lines.
#[derive(Drop)]
pub struct Talks {
    dialect: Dialect,
    data_channels: Vec<Dlci>,
    talks: Vec<Talk>,
}

impl Model for Talks {
    ghost use Rattle.std.specs.Prelude.{◌≡◌, length};
    ghost use Rattle.modem_show.specs.Talking.{Talks};

    ghost Value = { Talks };

    ghost view = { λ t. record { rules = t.dialect; data_channels = t.data_channels.items; talks = t.talks.items } };

    ghost invariant = { λ t. length t.talks.items ≡ 62 };
}

/// Of each connection nothing was said.
fn silent_talks(alloc: Global) -> Result<Vec<Talk>, AllocError>
    ensures { IfOk result (λ ts. ts.items ≡ replicate 62 silence) }
{
    let mut talks = Vec::with_capacity(alloc, Dlci::COUNT)?;
    for _ in 0..Dlci::COUNT {
        talks.push(Talk::new(alloc))?;
    }
    Ok(talks)
}

/// Forgets what was said on each connection.
fn reset_each(talks: &mut Vec<Talk>)
    ensures { talks.new.items ≡ replicate (length talks.old.items) silence }
{
    for talk in talks.iter_mut() {
        talk.reset();
    }
}

/// Whether what a frame answers is a DISC.
fn is_close(answered: Option<Kind>) -> bool
    ensures { result ≡ is_close answered }
{
    match answered {
        Some(kind) => is_kind(kind, Kind::Disc),
        None => false,
    }
}

/// Whether a connection begins with this frame, which answers one of this kind, or has ended: what comes before a DISC is answered still
/// belongs to it, and a UA to a SABM that was sent again begins nothing.
fn is_turn_on(answered: Option<Kind>, dlci: u8, frame: FrameView<'_>) -> bool
    ensures { result ≡ is_turn_on answered dlci (frame_of frame.entry) }
{
    is_on(Kind::Sabm, dlci, frame)
        || (is_on(Kind::Ua, dlci, frame) && is_close(answered))
        || is_on(Kind::Dm, dlci, frame)
}

/// Whether all connections begin with this frame, or have ended.
fn closes_all(answered: Option<Kind>, frame: FrameView<'_>) -> bool
    ensures { result ≡ closes_all answered (frame_of frame.entry) }
{
    is_turn_on(answered, 0, frame) || answers_close_down(frame)
}

/// Whether a connection is one of these.
fn is_among(dlcis: &[Dlci], dlci: Dlci) -> bool
    ensures { result ≡ list_any (λ e. e.number == dlci.number) dlcis.now }
{
    dlcis.iter().any(|other| other.number == dlci.number)
}

/// Whether a frame has text: it is on a connection, and not on one of data.
fn has_text(data_channels: &[Dlci], frame: FrameView<'_>) -> bool
    ensures { result ≡ has_text data_channels.now (frame_of frame.entry) }
{
    is_data_frame(frame) && !is_among(data_channels, frame.dlci)
}

impl Talks {
    /// Nothing was said. `data_channels` are the connections whose octets are data and no lines.
    pub fn new(
        alloc: Global,
        dialect: Dialect,
        data_channels: Vec<Dlci>,
    ) -> Result<Talks, AllocError>
        ensures rules { IfOk result (λ t. t.rules ≡ dialect) }
        ensures data_channels { IfOk result (λ t. t.data_channels ≡ data_channels.items) }
        ensures past { IfOk result (λ t. TalksFit t []) }
    {
        let talks = silent_talks(alloc)?;
        Ok(Talks {
            dialect,
            data_channels,
            talks,
        })
    }

    /// A frame passes, which answers one of this kind: tells the lines that end in it, behind what was told.
    fn step(
        &mut self,
        direction: Direction,
        answered: Option<Kind>,
        frame: FrameView<'_>,
        out: &mut Vec<Told>,
    ) -> Result<(), AllocError>
        ensures after { OnOk result (TalksAfter self.old self.new direction answered (frame_of frame.entry)) }
        ensures told { OnOk result (
            out.new.items ≡ out.old.items ++ told_at self.old direction answered (frame_of frame.entry)) }
    {
        let talk = usize::from(frame.dlci.number());
        if closes_all(answered, frame) {
            reset_each(&mut self.talks);
            Ok(())
        } else if is_turn_on(answered, frame.dlci.number(), frame) {
            self.talks[talk].reset();
            Ok(())
        } else if has_text(&self.data_channels, frame) {
            self.talks[talk].hear(&self.dialect, direction, frame.info, out)
        } else {
            Ok(())
        }
    }

    /// Takes a frame that passed, which answers one of this kind (`Watcher::answered`): tells the lines that end in it, behind what was
    /// told. Where memory is refused nothing is promised.
    pub fn pass(
        &mut self,
        stamp: Stamp,
        direction: Direction,
        answered: Option<Kind>,
        frame: FrameView<'_>,
        out: &mut Vec<Told>,
    ) -> Result<(), AllocError>
        ensures rules { OnOk result (self.new.rules ≡ self.old.rules) }
        ensures data_channels { OnOk result (self.new.data_channels ≡ self.old.data_channels) }
        ensures past { OnOk result ((line : List Caught) → TalksFit self.old line
            → answered ≡ answered_kind line (caught stamp direction (frame_of frame.entry))
            → TalksFit self.new (caught stamp direction (frame_of frame.entry) ∷ line)) }
        ensures told { OnOk result ((line : List Caught) → TalksFit self.old line
            → answered ≡ answered_kind line (caught stamp direction (frame_of frame.entry))
            → out.new.items ≡ out.old.items ++ told_in (dialect_of self.old.rules) self.old.data_channels line
            (caught stamp direction (frame_of frame.entry))) }
    {
        self.step(direction, answered, frame, out)
    }

    /// Whether a command is under way on a connection.
    pub fn is_under_way(&self, dlci: Dlci) -> bool
        ensures { (line : List Caught) → TalksFit self.now line
            → result ≡ is_some (talk_of (dialect_of self.now.rules) self.now.data_channels dlci.number line).window }
    {
        self.talks[usize::from(dlci.number())].is_under_way()
    }

    /// Whether a connection is one of data.
    pub fn is_data(&self, dlci: Dlci) -> bool
        ensures { result ≡ list_any (λ e. e.number == dlci.number) self.now.data_channels }
    {
        is_among(&self.data_channels, dlci)
    }

    /// The codes by which lines are read.
    pub fn dialect(&self) -> &Dialect
        ensures { result.now ≡ self.now.rules }
    {
        &self.dialect
    }
}
