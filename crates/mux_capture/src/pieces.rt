//! What octets that pass one way come to, as packets.
ghost use Rattle.std.specs.Prelude.{◌≡◌, ◌<◌, ◌≤◌, drop, length, take, true, IfOk, OnOk};
ghost use Rattle.mux_capture.specs.Pieces.{behind_flags, most_damage};
ghost use Rattle.mux_capture.specs.Pushing.{PushesAll, PushesDamage, PushesFirst};

use crate::finding::{Found, first_frame};
use crate::packet::{Direction, Stamp, push_damage, push_packet};
use std::alloc::{AllocError, Global};

/// A flag: a frame begins and ends with it (27.010, 5.2.6.1).
const FLAG: u8 = 0xF9;

/// The most octets of a packet that has no frame.
const MOST_DAMAGE: usize = 65532;

/// The octets behind the flags at their front.
fn behind_flags(octets: &[u8]) -> &[u8]
    ensures { result.now ≡ behind_flags octets.now }
{
    let mut left = octets;
    while let [FLAG, rest @ ..] = left {
        left = rest;
    }
    left
}

/// As many octets as a packet that has no frame can have, and those behind them.
fn cut(octets: &[u8]) -> (&[u8], &[u8])
    ensures part { result.0.now ≡ take most_damage octets.now }
    ensures rest { result.1.now ≡ drop most_damage octets.now }
{
    if octets.len() > MOST_DAMAGE {
        octets.split_at(MOST_DAMAGE)
    } else {
        octets.split_at(octets.len())
    }
}

/// Writes the packets of octets that are no frame.
pub(crate) fn push_all_damage(
    stamp: Stamp,
    direction: Direction,
    octets: &[u8],
    out: &mut Vec<u8>,
) -> Result<(), AllocError>
    ensures { OnOk result (PushesDamage stamp direction octets.now out.old.items out.new.items) }
{
    let mut left = behind_flags(octets);
    while !left.is_empty() {
        let (part, rest) = cut(left);
        push_damage(stamp, direction, part, out)?;
        left = rest;
    }
    Ok(())
}

/// Writes the packets of a text up to its first frame, and gives the text from that frame's closing flag on; or those of all that is
/// no frame, and gives the rest, which can become one. It says whether there was a frame.
fn push_first<'a>(
    alloc: Global,
    n1: u16,
    stamp: Stamp,
    direction: Direction,
    text: &'a [u8],
    out: &mut Vec<u8>,
) -> Result<(bool, &'a [u8]), AllocError>
    ensures fewer { IfOk result (λ r. (length r.1.now ≤ length text.now) × (r.0 ≡ true → length r.1.now < length text.now)) }
    ensures pushes { IfOk result (λ r. PushesFirst n1 stamp direction text.now r.1.now r.0 out.old.items out.new.items) }
{
    match first_frame(alloc, n1, text, 0)? {
        Found::None { front, rest } => {
            push_all_damage(stamp, direction, front, out)?;
            Ok((false, rest))
        }
        Found::Frame { front, frame, .. } => {
            push_all_damage(stamp, direction, front, out)?;
            push_packet(stamp, direction, frame, out)?;
            let (_, left) = text.split_at(front.len() + frame.len() - 1);
            Ok((true, left))
        }
    }
}

/// Writes the packets of all that a text comes to, and gives the rest, which can become a frame.
pub(crate) fn push_pieces<'a>(
    alloc: Global,
    n1: u16,
    stamp: Stamp,
    direction: Direction,
    text: &'a [u8],
    out: &mut Vec<u8>,
) -> Result<&'a [u8], AllocError>
    ensures { IfOk result (λ rest. PushesAll n1 stamp direction text.now rest.now out.old.items out.new.items) }
{
    let mut left = text;
    let mut more = true;
    while more {
        (more, left) = push_first(alloc, n1, stamp, direction, left, out)?;
    }
    Ok(left)
}
