//! What is counted of a connection.
ghost use Rattle.std.specs.Prelude.{◌≡◌, ◌++◌, OnOk};
ghost use Rattle.std.specs.String.{string_bytes};
ghost use Rattle.show_texts.specs.Tallies.{is_empty, no_tally, tally_text, total_text, with_all, with_frame, with_seen, with_told};

use crate::line::waited;
use crate::words::push_span;
use at_text::Seen;
use modem_show::Told;
use mux_capture::Stamp;
use mux_frame::Dlci;
use std::alloc::AllocError;
use std::fmt::Write;

/// What is counted of a connection. Each count stops at `u64::MAX`.
#[derive(Clone, Copy)]
pub struct Tally {
    /// When its last command passed.
    pub asked: Option<Stamp>,
    /// Commands.
    pub commands: u64,
    /// Commands whose answer came.
    pub answered: u64,
    /// The longest that an answer took, in microseconds.
    pub longest: u64,
    /// Lines that no command asked for.
    pub reports: u64,
    /// Octets of data, both ways.
    pub octets: u64,
}

impl Tally {
    /// That of a connection on which nothing passed.
    pub const NONE: Tally = Tally {
        asked: None,
        commands: 0,
        answered: 0,
        longest: 0,
        reports: 0,
        octets: 0,
    };

    /// With a line of the modem.
    fn with_seen(self, stamp: Stamp, seen: &Seen) -> Tally
        ensures { result ≡ with_seen stamp self seen.now }
    {
        match seen {
            Seen::Echo | Seen::Kept => self,
            Seen::Done(_) => Tally {
                answered: self.answered.saturating_add(1),
                longest: self.longest.max(waited(self.asked, stamp)),
                ..self
            },
            Seen::Unsolicited(_) | Seen::Other => Tally {
                reports: self.reports.saturating_add(1),
                ..self
            },
        }
    }

    /// With a line of either end.
    fn with_told(self, stamp: Stamp, told: &Told) -> Tally
        ensures { result ≡ with_told stamp self told.now }
    {
        match told {
            Told::Command(_, _) => Tally {
                asked: Some(stamp),
                commands: self.commands.saturating_add(1),
                ..self
            },
            Told::Text(_) => self,
            Told::Line(_, seen) => self.with_seen(stamp, seen),
        }
    }

    /// With each of these lines.
    fn with_all(self, stamp: Stamp, told: &[Told]) -> Tally
        ensures { result ≡ with_all stamp self told.now }
    {
        let mut tally = self;
        for one in told {
            tally = tally.with_told(stamp, one);
        }
        tally
    }

    /// With a frame of so many octets of data, and the lines that end in it.
    pub(crate) fn with_frame(self, stamp: Stamp, octets: u64, told: &[Told]) -> Tally
        ensures { result ≡ with_frame stamp self octets told.now }
    {
        let counted = Tally {
            octets: self.octets.saturating_add(octets),
            ..self
        };
        counted.with_all(stamp, told)
    }

    /// Whether nothing was counted.
    fn is_empty(self) -> bool
        ensures { result ≡ is_empty self }
    {
        self.commands == 0 && self.answered == 0 && self.reports == 0 && self.octets == 0
    }

    fn push(self, dlci: Dlci, text: &mut String) -> Result<(), AllocError>
        ensures { OnOk result (string_bytes text.new ≡ string_bytes text.old ++ tally_text dlci.number self) }
    {
        let dlci = dlci.number();
        let Tally {
            commands,
            answered,
            longest,
            reports,
            octets,
            ..
        } = self;
        write!(
            text,
            "total {dlci} commands {commands} answered {answered} longest "
        )?;
        push_span(longest, text)?;
        writeln!(text, " reports {reports} data {octets}")
    }

    /// What is printed of it at the end, where there was anything.
    pub(crate) fn push_total(self, dlci: Dlci, text: &mut String) -> Result<(), AllocError>
        ensures { OnOk result (string_bytes text.new ≡ string_bytes text.old ++ total_text dlci.number self) }
    {
        if self.is_empty() {
            return Ok(());
        }
        self.push(dlci, text)
    }
}
