//! A modem at plain command lines.
ghost use Rattle.std.specs.Prelude.{◌≡◌, ◌≤◌, ◌<◌, ◌++◌, ◌∷◌, [], None, length, take, option_map, IfOk, OnOk};
ghost use Rattle.at_text.specs.Lines.{cut, is_line_end};
ghost use Rattle.ctl_sim.specs.Plain.{ended_by, entered_by_ended, from_at, may_begin, modem_by, modem_by_ended, plain_after, plain_begun, plain_octet, repeated_as, run_by, said_entering, said_to, said_to_ended};
ghost use Rattle.modem_sim.specs.Pieces.{framed};
ghost use Rattle.ctl_sim.specs.Entry.{mux_entry, octets_of};

use crate::entry::mux_entry;
use at_cmds::{begins_with_at, is_letter_a, is_letter_t};
use modem_sim::{Modem, reply};
use mux_frame::N1;
use std::alloc::{AllocError, Global};
use std::marker::Model;
use std::mem;

/// So many octets are kept of a line.
const LINE_LEN: usize = 512;

/// A modem at plain command lines. Contracts see all that octets make of it; of octets behind a line that enters the multiplexer it
/// takes none.
#[derive(Drop)]
pub struct PlainMode {
    alloc: Global,
    n1: N1,
    /// What is kept of the line that hasn't ended.
    run: Vec<u8>,
    modem: Modem,
    said: Vec<u8>,
    entered: Option<N1>,
}

impl Model for PlainMode {
    ghost use Rattle.std.specs.Prelude.{[], option_map};
    ghost use Rattle.ctl_sim.specs.Entry.{octets_of};
    ghost use Rattle.ctl_sim.specs.Plain.{Plain};

    ghost Value = { Plain };

    ghost view = { λ p. record {
      n1 = p.n1.octets;
      run = p.run.items;
      modem = p.modem;
      said = p.said.items;
      entered = option_map octets_of p.entered;
      behind = [];
    } };
}

/// Whether octets begin with `AT`, its letters in either case, or may with octets behind them.
fn may_begin(octets: &[u8]) -> bool
    ensures { result ≡ may_begin octets.now }
{
    match octets {
        [] => true,
        [a] => is_letter_a(*a),
        [a, t, ..] => is_letter_a(*a) && is_letter_t(*t),
    }
}

/// Whether it ends a line (V.250, 6.2.1, 6.2.2).
fn is_line_end(octet: u8) -> bool
    ensures { result ≡ is_line_end octet }
{
    octet == b'\r' || octet == b'\n'
}

/// Keeps one more octet of a line. Octets before `AT` are passed over (V.250, 5.2.1).
fn keep(run: &mut Vec<u8>, octet: u8) -> Result<(), AllocError>
    ensures { OnOk result (run.new.items ≡ cut (from_at (run.old.items ++ octet ∷ []))) }
{
    run.push(octet)?;
    while !may_begin(run) {
        run.remove(0);
    }
    run.truncate(LINE_LEN);
    Ok(())
}

/// Writes a line repeated, where that is on.
fn push_repeated(echo: bool, line: &[u8], out: &mut Vec<u8>) -> Result<(), AllocError>
    ensures { OnOk result (out.new.items ≡ out.old.items ++ repeated_as echo line.now) }
{
    if echo {
        out.extend_from_slice(line)?;
        out.push(b'\r')?;
    }
    Ok(())
}

/// Writes a line as a modem does: CR LF, text, CR LF (V.250, 5.7.1).
fn push_framed(text: &[u8], out: &mut Vec<u8>) -> Result<(), AllocError>
    ensures { OnOk result (out.new.items ≡ out.old.items ++ framed text.now) }
{
    out.extend_from_slice(b"\r\n")?;
    out.extend_from_slice(text)?;
    out.extend_from_slice(b"\r\n")?;
    Ok(())
}

/// Writes what is said to a line that enters the multiplexer.
#[tactic(auto, unfolding(crate::specs::Plain::said_entering))]
fn push_entering(echo: bool, line: &[u8], out: &mut Vec<u8>) -> Result<(), AllocError>
    ensures { OnOk result (out.new.items ≡ out.old.items ++ said_entering echo line.now) }
{
    push_repeated(echo, line, out)?;
    push_framed(b"OK", out)
}

/// Answers a line; gives the N1 of the multiplexer where it enters that. After an error nothing is said of modem and octets.
#[tactic(auto, using(crate::proofs::Answering::said_none))]
fn answer(
    alloc: Global,
    n1: N1,
    modem: &mut Modem,
    line: &[u8],
    out: &mut Vec<u8>,
) -> Result<Option<N1>, AllocError>
    ensures said { OnOk result
        (out.new.items ≡ out.old.items ++ said_to (mux_entry n1.octets line.now) modem.old line.now) }
    ensures modem { OnOk result (modem.new ≡ modem_by (mux_entry n1.octets line.now) modem.old line.now) }
    ensures entered { IfOk result (λ entered. option_map octets_of entered ≡ mux_entry n1.octets line.now) }
{
    match mux_entry(alloc, n1, line)? {
        Some(entered) => {
            push_entering(modem.echoes(false), line, out)?;
            Ok(Some(entered))
        }
        None => match reply(modem, false, line, out) {
            Ok(_) => Ok(None),
            Err(_) => Err(AllocError),
        },
    }
}

/// Reads an octet, and answers the command line that it ends, if it ends one.
fn read_octet(
    alloc: Global,
    n1: N1,
    run: &mut Vec<u8>,
    modem: &mut Modem,
    octet: u8,
    out: &mut Vec<u8>,
) -> Result<Option<N1>, AllocError>
    ensures run { OnOk result (run.new.items ≡ run_by run.old.items octet) }
    ensures said { OnOk result
        (out.new.items ≡ out.old.items ++ said_to_ended n1.octets modem.old (ended_by run.old.items octet)) }
    ensures modem { OnOk result (modem.new ≡ modem_by_ended n1.octets modem.old (ended_by run.old.items octet)) }
    ensures entered { IfOk result
        (λ entered. option_map octets_of entered ≡ entered_by_ended n1.octets (ended_by run.old.items octet)) }
{
    if !is_line_end(octet) {
        keep(run, octet)?;
        return Ok(None);
    }
    let line = mem::replace(run, Vec::new(alloc));
    if !begins_with_at(&line) {
        return Ok(None);
    }
    answer(alloc, n1, modem, &line, out)
}

impl PlainMode {
    /// Plain lines begin. N1 is that of a multiplexer that is entered without naming it.
    pub fn new(alloc: Global, n1: N1, modem: Modem) -> PlainMode
        ensures { result ≡ plain_begun n1.octets modem }
    {
        PlainMode {
            alloc,
            n1,
            run: Vec::new(alloc),
            modem,
            said: Vec::new(alloc),
            entered: None,
        }
    }

    /// Takes an octet. After an error nothing is said of it.
    fn push(&mut self, octet: u8) -> Result<(), AllocError>
        requires { self.old.entered ≡ None }
        ensures { OnOk result (self.new ≡ plain_octet self.old octet) }
    {
        self.entered = read_octet(
            self.alloc,
            self.n1,
            &mut self.run,
            &mut self.modem,
            octet,
            &mut self.said,
        )?;
        Ok(())
    }

    /// Takes octets as they come, up to the end of a line that enters the multiplexer, and says how many: answers the lines that end
    /// in them, in order. Refused only with NoMemory; nothing is said of the plain lines then.
    #[tactic(auto, using(crate::proofs::Feeding::fed_none, crate::proofs::Feeding::fed_more, crate::proofs::Feeding::fed_all))]
    pub fn feed(&mut self, octets: &[u8]) -> Result<usize, AllocError>
        ensures bound { IfOk result (λ n. n ≤ length octets.now) }
        ensures taken { IfOk result (λ n. self.new ≡ plain_after self.old (take n octets.now)) }
        ensures all { IfOk result (λ n. self.new.entered ≡ None → n ≡ length octets.now) }
        ensures some { IfOk result (λ n. self.old.entered ≡ None → 0 < length octets.now → 0 < n) }
    {
        for (count, octet) in octets.iter().enumerate() {
            if self.entered.is_some() {
                return Ok(count);
            }
            self.push(*octet)?;
        }
        Ok(octets.len())
    }

    /// The octets said and not yet handed out.
    pub fn said(&self) -> &[u8]
        ensures { result.now ≡ self.now.said }
    {
        self.said.as_slice()
    }

    /// Notes that all that it said is handed out.
    pub fn clear_said(&mut self)
        ensures { self.new ≡ record self.old { said = [] } }
    {
        self.said.clear();
    }

    /// The N1 of the multiplexer, once a line has entered it; nothing behind that line was taken.
    pub fn entered(&self) -> Option<N1>
        ensures entered { option_map octets_of result ≡ self.now.entered }
        ensures none_behind { self.now.behind ≡ [] }
    {
        self.entered
    }

    /// The modem.
    pub fn finish(self) -> Modem
        ensures { result ≡ self.modem }
    {
        let PlainMode { modem, .. } = self;
        modem
    }
}
