//! Reads the packets of a capture, one after the other.
ghost use Rattle.std.specs.Prelude.{◌≡◌, ◌≢◌, [], Err, IfOk, OnOk, false, true};
ghost use Rattle.std.specs.Io.KnownBytes.{Consumes, IsAtEnd};
ghost use Rattle.mux_capture.specs.Reading.{IsHeaded};
ghost use Rattle.show_texts.specs.Captures.{ReadsMore};
ghost use Rattle.show_texts.specs.declared.fault.ShowFault.TheVariants as ShowFault;

use crate::fault::ShowFault;
use mux_capture::read_header;
use std::io::{ErrorKind, Read};

/// How many octets the header of a file has.
const HEADER: usize = 24;

/// How many octets are read at once.
const PIECE: usize = 256;

/// The most octets of a packet behind its head.
const MOST_KEPT: usize = 65535;

#[tactic(auto, using(crate::proofs::Shown::read_none, crate::proofs::Shown::read_on))]
/// Reads so many octets behind others.
fn read_more<I: Read>(input: &mut I, count: usize, octets: &mut Vec<u8>) -> Result<(), ShowFault>
    ensures read { OnOk result (ReadsMore (I.remaining input.old) (I.remaining input.new) octets.old.items octets.new.items) }
    ensures others { result ≢ Err ShowFault.NoCapture }
{
    let mut piece = [0u8; PIECE];
    let mut left = count;
    while left > 0 {
        let some = left.min(PIECE);
        read_piece(input, &mut piece[..some], octets)?;
        left -= some;
    }
    Ok(())
}

#[tactic(auto, using(crate::proofs::Shown::read_at_once))]
/// Reads as many octets as a piece has, behind others.
fn read_piece<I: Read>(
    input: &mut I,
    piece: &mut [u8],
    octets: &mut Vec<u8>,
) -> Result<(), ShowFault>
    ensures read { OnOk result (ReadsMore (I.remaining input.old) (I.remaining input.new) octets.old.items octets.new.items) }
    ensures others { result ≢ Err ShowFault.NoCapture }
{
    match input.read_exact(piece) {
        Ok(()) => {
            octets.extend_from_slice(piece)?;
            Ok(())
        }
        Err(error) if error.kind() == ErrorKind::UnexpectedEof => Err(ShowFault::CutShort),
        Err(_) => Err(ShowFault::Input),
    }
}

#[tactic(auto, using(crate::proofs::Shown::consumed_none, crate::proofs::Shown::consumed_keeps, crate::proofs::Shown::read_piece_on))]
/// Reads the first octet of a packet; false at the end of the input. A read that was interrupted is made again.
fn read_first<I: Read>(input: &mut I, octets: &mut Vec<u8>) -> Result<bool, ShowFault>
    ensures more { IfOk result (λ more. more ≡ true
        → ReadsMore (I.remaining input.old) (I.remaining input.new) octets.old.items octets.new.items) }
    ensures end { IfOk result (λ more. more ≡ false
        → Consumes (I.remaining input.old) (I.remaining input.new) [] × IsAtEnd (I.remaining input.new)) }
    ensures others { result ≢ Err ShowFault.NoCapture }
{
    let mut piece = [0u8; 1];
    for _ in 0..u64::MAX {
        match input.read(&mut piece) {
            Ok(0) => return Ok(false),
            Ok(count) => {
                octets.extend_from_slice(&piece[..count])?;
                return Ok(true);
            }
            Err(error) if error.kind() == ErrorKind::Interrupted => {}
            Err(_) => return Err(ShowFault::Input),
        }
    }
    Err(ShowFault::Endless)
}

/// How many octets the head of a packet says to follow it; 65536 where it says more.
fn kept_of(head: &[u8]) -> usize {
    match head {
        [_, _, _, _, _, _, _, _, a, b, 0, 0, ..] => usize::from(u16::from_le_bytes([*a, *b])),
        _ => MOST_KEPT + 1,
    }
}

#[tactic(auto, using(crate::proofs::Shown::read_on, crate::proofs::Shown::read_whole))]
/// Reads the octets of a packet in the place of others, its head first; false at the end of the input.
pub(crate) fn read_octets<I: Read>(input: &mut I, octets: &mut Vec<u8>) -> Result<bool, ShowFault>
    ensures more { IfOk result (λ more. more ≡ true
        → Consumes (I.remaining input.old) (I.remaining input.new) octets.new.items) }
    ensures end { IfOk result (λ more. more ≡ false
        → Consumes (I.remaining input.old) (I.remaining input.new) [] × IsAtEnd (I.remaining input.new)) }
    ensures others { result ≢ Err ShowFault.NoCapture }
{
    octets.clear();
    if !read_first(input, octets)? {
        return Ok(false);
    }
    read_more(input, 15, octets)?;
    let kept = kept_of(octets.as_slice());
    if kept > MOST_KEPT {
        return Err(ShowFault::BadPacket);
    }
    read_more(input, kept, octets)?;
    Ok(true)
}

#[tactic(auto, using(crate::proofs::Shown::read_whole))]
/// Reads the header of a capture in the place of other octets. Where the input has fewer, or others, it is no capture.
pub(crate) fn read_head<I: Read>(input: &mut I, octets: &mut Vec<u8>) -> Result<(), ShowFault>
    ensures read { OnOk result (Consumes (I.remaining input.old) (I.remaining input.new) octets.new.items) }
    ensures headed { OnOk result (IsHeaded octets.new.items []) }
{
    octets.clear();
    match read_more(input, HEADER, octets) {
        Ok(()) => {}
        Err(ShowFault::CutShort) => return Err(ShowFault::NoCapture),
        Err(fault) => return Err(fault),
    }
    match read_header(octets.as_slice()) {
        Some([]) => Ok(()),
        _ => Err(ShowFault::NoCapture),
    }
}
