//! How frames are spelled.
use crate::lines::{Begins, Host, Player};
use crate::printing::{print_octets, say};
use crate::setup::Setup;
use crate::words::{BAD, dlci, number, split, times};
use ctl_run::Stop;
use mux_frame::{Dlci, FrameError, FrameView, Kind, write_frame};
use std::alloc::{AllocError, Global};

/// A writer of frames whose information has at most `n1` octets. What it reads:
///
/// - `DLCI KIND C/R P/F INFO`: a frame, as `modemctl frames` prints it. It prints the octets, or what is wrong with it.
///   The information is `-`, pairs of hexadecimal digits, or, as `41x128`, so often the same.
#[derive(Drop)]
pub struct Played<R: Host> {
    rt: R,
    n1: u16,
}

fn frame_kind(word: &str) -> Result<Kind, Stop> {
    match word {
        "SABM" => Ok(Kind::Sabm),
        "UA" => Ok(Kind::Ua),
        "DM" => Ok(Kind::Dm),
        "DISC" => Ok(Kind::Disc),
        "UIH" => Ok(Kind::Uih),
        _ => Err(BAD),
    }
}

fn bit(word: &str) -> Result<bool, Stop> {
    match word {
        "0" => Ok(false),
        "1" => Ok(true),
        _ => Err(BAD),
    }
}

/// Connection and kind, and the words behind them.
fn head(line: &str) -> Result<(Dlci, Kind, &str), Stop> {
    let (connection, rest) = split(line);
    let (kind, rest) = split(rest);
    Ok((dlci(connection)?, frame_kind(kind)?, rest))
}

/// C/R and P/F, and the word behind them.
fn bits(words: &str) -> Result<(bool, bool, &str), Stop> {
    let (cr, rest) = split(words);
    let (pf, rest) = split(rest);
    Ok((bit(cr)?, bit(pf)?, rest))
}

fn repeated(alloc: Global, octets: &[u8], times: u32) -> Result<Vec<u8>, AllocError> {
    let mut all = Vec::new(alloc);
    for _ in 0..times {
        all.extend_from_slice(octets)?;
    }
    Ok(all)
}

fn info(alloc: Global, word: &str) -> Result<Vec<u8>, Stop> {
    if word == "-" {
        return Ok(Vec::new(alloc));
    }
    let (digits, times) = times(word);
    let times = number(times)?;
    match hex::decode(alloc, digits.as_bytes()) {
        Ok(octets) => Ok(repeated(alloc, octets.as_slice(), times)?),
        Err(_) => Err(BAD),
    }
}

fn spell<R: Host>(rt: &R, n1: u16, frame: FrameView<'_>) -> Result<(), Stop> {
    let mut octets = Vec::new(rt.alloc());
    match write_frame(frame, n1, &mut octets) {
        Ok(()) => return print_octets(rt, octets.as_slice()),
        Err(FrameError::NoMemory) => return Err(Stop::NoMemory),
        Err(why) => say(rt, &why),
    }
    Ok(())
}

impl<R: Host> Player for Played<R> {
    fn go(&mut self, line: &str) -> Result<bool, Stop> {
        let (dlci, kind, rest) = head(line)?;
        let (cr, pf, rest) = bits(rest)?;
        let info = info(self.rt.alloc(), rest)?;
        let frame = FrameView {
            dlci,
            kind,
            cr,
            pf,
            info: info.as_slice(),
        };
        spell(&self.rt, self.n1, frame)?;
        Ok(false)
    }
}

impl<R: Host> Begins<R> for Played<R> {
    fn begin(rt: R, setup: &mut Setup) -> Result<Played<R>, Stop> {
        Ok(Played { rt, n1: setup.n1 })
    }
}
