//! The octets that `frames` reads, written as pairs of hexadecimal digits.
ghost use Rattle.std.specs.Prelude.{◌≡◌, ◌≢◌, ◌⊎◌, ◌<◌, None, Ok, Some, length, IfErr, MatchResult};
ghost use Rattle.std.specs.Result.{result_ok};
ghost use Rattle.hex.specs.Hex.{decode_of};
ghost use Rattle.ctl_run.specs.Dump.{IsNoDump, dump_octets, joined, line_octets};
ghost use Rattle.ctl_text.specs.Input.{input_lines};
ghost use Rattle.ctl_text.specs.LineFaults.{HasFault};
ghost use Rattle.ctl_run.specs.Input.{IsReason};
ghost use Rattle.ctl_run.specs.LineFaults.{DumpFault};
ghost use Rattle.ctl_text.specs.declared.expected.Expected.TheVariants as Fault;
ghost use Rattle.ctl_text.specs.declared.refusal.Refusal.TheVariants as Refusal;

use crate::stop::Stop;
use ctl_text::{Expected, Refusal, next_line, split_once};
use hex::FromHexError;
use std::alloc::Global;

/// What stands before the first blank of a line that isn't empty, and what behind it.
fn next_word(line: &[u8]) -> (&[u8], &[u8])
    requires { 0 < length line.now }
    ensures cut { line_octets line.now
        ≡ joined (result_ok (decode_of result.0.now)) (line_octets result.1.now) }
    ensures shorter { length result.1.now < length line.now }
{
    split_once(line, b' ').unwrap_or((line, &[]))
}

/// The octets of a word, which is pairs.
fn word_octets(alloc: Global, word: &[u8]) -> Result<Vec<u8>, Refusal>
    ensures { MatchResult result
        (λ octets. decode_of word.now ≡ Ok octets.items)
        (λ why. (why ≡ Refusal.NoMemory)
        ⊎ ((why ≡ Refusal.Bad Fault.Pairs) × (result_ok (decode_of word.now) ≡ None))) }
{
    match hex::decode(alloc, word) {
        Ok(octets) => Ok(octets),
        Err(FromHexError::OutOfMemory) => Err(Refusal::NoMemory),
        Err(_) => Err(Refusal::Bad(Expected::Pairs)),
    }
}

/// Appends the octets of one line: pairs with any blanks before, between and after them.
fn push_pairs(alloc: Global, line: &[u8], octets: &mut Vec<u8>) -> Result<(), Refusal>
    ensures says { MatchResult result
        (λ _. Some octets.new.items ≡ joined (Some octets.old.items) (line_octets line.now))
        (λ why. why ≢ Refusal.NoMemory → IsNoDump line.now) }
    ensures fault { IfErr result (HasFault (DumpFault line.now)) }
{
    let mut left = line;
    while !left.is_empty() {
        let (word, rest) = next_word(left);
        let pairs = word_octets(alloc, word)?;
        octets.extend_from_slice(pairs.as_slice())?;
        left = rest;
    }
    Ok(())
}

/// The octets of all lines. Refusals: the first bad line, with the first part of it that isn't as it must be; NoMemory.
pub fn read_dump(alloc: Global, dump: &[u8]) -> Result<Vec<u8>, Stop>
    ensures { MatchResult result (λ octets. dump_octets (input_lines dump.now) ≡ Some octets.items)
        (IsReason IsNoDump DumpFault (input_lines dump.now)) }
{
    let mut octets = Vec::new(alloc);
    let mut place = 0;
    let mut left = dump;
    while let Some((line, rest)) = next_line(left) {
        left = rest;
        place += 1;
        if let Err(refusal) = push_pairs(alloc, line, &mut octets) {
            return Err(Stop::at_line(place, refusal));
        }
    }
    Ok(octets)
}
