//! What is said on a connection (V.250, 5).
ghost use Rattle.std.specs.Prelude.{◌≡◌, ◌∷◌, [], ◌++◌, Some, is_some, OnOk};
ghost use Rattle.mux_capture.specs.declared.packet.Direction.TheVariants.{FromModem, ToModem};
ghost use Rattle.at_text.specs.Lines.{lines, kept_run};
ghost use Rattle.at_text.specs.Rules.{dialect_of};
ghost use Rattle.at_text.specs.Dialects.{Dialect as Codes};
ghost use Rattle.at_text.specs.OpenWindow.{after_line, opened};
ghost use Rattle.modem_show.specs.Talking.{told_by, told_of_driver, window_by_driver, told_of, window_after, told, heard, told_each, heard_each, silence};

use crate::told::Told;
use at_text::{CommandLine, Dialect, LineReader, Text, TextError, Window};
use mux_capture::Direction;
use std::alloc::{AllocError, Global};
use std::marker::Model;

/// Tells the commands of the driver on a connection, and what each line of the modem is.
#[derive(Drop)]
pub struct Talk {
    alloc: Global,
    driver: LineReader,
    modem: LineReader,
    window: Window,
}

impl Model for Talk {
    ghost use Rattle.modem_show.specs.Talking.{Talk};

    ghost Value = { Talk };

    ghost view = { λ t. record { driver = t.driver; modem = t.modem; window = t.window } };
}

/// A command begins, and ends the one that was under way.
fn begin_command(line: CommandLine, window: &mut Window)
    ensures { window.new ≡ Some (opened line) }
{
    window.drop_command();
    window.begin(&line);
}

/// A line of the driver begins a command, if it is one.
fn begin(
    alloc: Global,
    text: &[u8],
    window: &mut Window,
    out: &mut Vec<Told>,
) -> Result<(), AllocError>
    ensures window { OnOk result (window.new ≡ window_by_driver window.old text.now) }
    ensures told { OnOk result (out.new.items ≡ out.old.items ++ told_of_driver window.old text.now ∷ []) }
{
    let copy = Text::from(Vec::from_slice(alloc, text)?);
    match CommandLine::new(alloc, text) {
        Ok(line) => {
            let overlaps = !window.idle();
            begin_command(line, window);
            out.push(Told::Command(copy, overlaps))?;
            Ok(())
        }
        Err(TextError::NoMemory) => Err(AllocError),
        Err(_) => {
            out.push(Told::Text(copy))?;
            Ok(())
        }
    }
}

/// Reads an octet of the driver.
fn read_driver(
    alloc: Global,
    octet: u8,
    reader: &mut LineReader,
    window: &mut Window,
    out: &mut Vec<Told>,
) -> Result<(), AllocError>
    ensures run { OnOk result (reader.new ≡ kept_run (reader.old ++ octet ∷ [])) }
    ensures window { (dialect : Codes) → OnOk result
        (window.new ≡ window_after dialect ToModem window.old (lines (reader.old ++ octet ∷ []))) }
    ensures told { (dialect : Codes) → OnOk result
        (out.new.items ≡ out.old.items ++ told_of dialect ToModem window.old (lines (reader.old ++ octet ∷ []))) }
{
    let Some(line) = reader.push(octet) else {
        return Ok(());
    };
    begin(alloc, line.text, window, out)
}

/// Says what a line of the modem is.
fn place(
    alloc: Global,
    dialect: &Dialect,
    text: &[u8],
    window: &mut Window,
    out: &mut Vec<Told>,
) -> Result<(), AllocError>
    ensures window { OnOk result (window.new ≡ after_line (dialect_of dialect.now) window.old text.now) }
    ensures told { OnOk result (out.new.items
        ≡ out.old.items ++ told_by (dialect_of dialect.now) FromModem window.old text.now ∷ []) }
{
    let copy = Text::from(Vec::from_slice(alloc, text)?);
    let Ok(seen) = window.see_by(dialect, text) else {
        return Err(AllocError);
    };
    out.push(Told::Line(copy, seen))?;
    Ok(())
}

/// Reads an octet of the modem.
fn read_modem(
    alloc: Global,
    dialect: &Dialect,
    octet: u8,
    reader: &mut LineReader,
    window: &mut Window,
    out: &mut Vec<Told>,
) -> Result<(), AllocError>
    ensures run { OnOk result (reader.new ≡ kept_run (reader.old ++ octet ∷ [])) }
    ensures window { OnOk result (window.new
        ≡ window_after (dialect_of dialect.now) FromModem window.old (lines (reader.old ++ octet ∷ []))) }
    ensures told { OnOk result (out.new.items ≡ out.old.items
        ++ told_of (dialect_of dialect.now) FromModem window.old (lines (reader.old ++ octet ∷ []))) }
{
    let Some(line) = reader.push(octet) else {
        return Ok(());
    };
    place(alloc, dialect, line.text, window, out)
}

impl Talk {
    /// Nothing was said.
    pub fn new(alloc: Global) -> Talk
        ensures { result ≡ silence }
    {
        Talk {
            alloc,
            driver: LineReader::new(),
            modem: LineReader::new(),
            window: Window::new(alloc),
        }
    }

    /// Forgets what was said.
    pub fn reset(&mut self)
        ensures { self.new ≡ silence }
    {
        self.driver.reset();
        self.modem.reset();
        self.window.drop_command();
    }

    /// Whether a command is under way.
    pub fn is_under_way(&self) -> bool
        ensures { result ≡ is_some self.now.window }
    {
        !self.window.idle()
    }

    /// An octet goes this way.
    fn push(
        &mut self,
        dialect: &Dialect,
        direction: Direction,
        octet: u8,
        out: &mut Vec<Told>,
    ) -> Result<(), AllocError>
        ensures kept { OnOk result (self.new ≡ heard (dialect_of dialect.now) direction self.old (octet ∷ [])) }
        ensures told { OnOk result (out.new.items
            ≡ out.old.items ++ told (dialect_of dialect.now) direction self.old (octet ∷ [])) }
    {
        match direction {
            Direction::ToModem => read_driver(
                self.alloc,
                octet,
                &mut self.driver,
                &mut self.window,
                out,
            ),
            Direction::FromModem => read_modem(
                self.alloc,
                dialect,
                octet,
                &mut self.modem,
                &mut self.window,
                out,
            ),
        }
    }

    /// Takes octets of this way, and tells the lines that end in them, behind what was told. Where memory is refused nothing is promised.
    pub fn hear(
        &mut self,
        dialect: &Dialect,
        direction: Direction,
        octets: &[u8],
        out: &mut Vec<Told>,
    ) -> Result<(), AllocError>
        ensures kept { OnOk result (self.new ≡ heard_each (dialect_of dialect.now) direction self.old octets.now) }
        ensures told { OnOk result (out.new.items
            ≡ out.old.items ++ told_each (dialect_of dialect.now) direction self.old octets.now) }
    {
        for octet in octets {
            self.push(dialect, direction, *octet, out)?;
        }
        Ok(())
    }
}
