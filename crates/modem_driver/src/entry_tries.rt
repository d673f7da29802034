//! Entering the multiplexer in one call, with the caller's text and for as long as the caller says (27.007, 5.7).
ghost use Rattle.std.specs.Prelude.{◌≡◌, ◌≢◌, ◌+◌, ◌-◌, ◌^◌, ◌≤◌, ◌⊎◌, [], true, false, IfOk, IfErr, OnOk, Bool, ℕ, Err, if◌then◌else◌};
ghost use Rattle.serial_line.specs.Counts.{one_more};
ghost use Rattle.at_text.specs.declared.finals.Final.TheVariants.{Good};
ghost use Rattle.modem_driver.specs.EntrySteps.{IsAnswered};
ghost use Rattle.modem_driver.specs.EntryTries.{AsksEach, HasNoReply, IsNeverRepliedTo, IsPartlySent, IsRepliedTo, IsSent, IsTried, IsUnanswered, KeepsUp, SaysWhy, closing, fill, ranges_text};
ghost use Rattle.modem_driver.specs.declared.entering.EntryError.TheVariants as error;

use crate::entering::{EntryError, next_octet};
use crate::entry::{Entry, EntryStep, close_down};
use at_text::Final;
use serial_line::SerialLine;

/// What asks which values an entry may have.
const RANGES: &[u8] = b"AT+CMUX=?\r";

/// A flag (27.010, 5.2.6.1).
const FLAG: &[u8] = &[0xF9];

/// Decides how long an entry goes on. The entry asks it after each step. Once it has said no, it isn't asked again until its wait is
/// begun afresh. After a step that moved nothing it may wait: by a clock, a count, or a bell.
///
/// Contracts see whether it is used up, how often it was asked, how often of these after a step that moved nothing, and how often its
/// wait was begun afresh. The counts stop at `u64::MAX`.
pub trait Patience {
    /// Whether it is used up.
    ghost is_over: { Self → Bool };

    /// How often it was asked.
    ghost asked: { Self → ℕ };

    /// How often it was asked after a step that moved nothing.
    ghost idle: { Self → ℕ };

    /// How often its wait was begun afresh.
    ghost waits: { Self → ℕ };

    /// Whether another step may be made, after one that moved an octet, or none. It may wait before it answers. Requires that it isn't
    /// used up.
    fn goes_on(&mut self, moved: bool) -> bool
        requires { is_over self.old ≡ false }
        ensures over { result ≡ false → is_over self.new ≡ true }
        ensures ready { result ≡ true → is_over self.new ≡ false }
        ensures counted { asked self.new ≡ one_more (asked self.old) }
        ensures idle { idle self.new ≡ (if moved then idle self.old else one_more (idle self.old)) }
        ensures waits { waits self.new ≡ waits self.old };

    /// Begins the wait afresh: what follows has as long as an entry has for a try.
    fn renew(&mut self)
        ensures ready { is_over self.new ≡ false }
        ensures counted { asked self.new ≡ asked self.old }
        ensures idle { idle self.new ≡ idle self.old }
        ensures waits { waits self.new ≡ one_more (waits self.old) };

    /// Begins a short wait: as long as a modem takes to answer a CLD frame, some 300 milliseconds.
    fn pause(&mut self)
        ensures ready { is_over self.new ≡ false }
        ensures counted { asked self.new ≡ asked self.old }
        ensures idle { idle self.new ≡ idle self.old }
        ensures waits { waits self.new ≡ one_more (waits self.old) };
}

/// Sends a text, and reads octet by octet to the end of the first line that is a final code. Refusals: NoAnswer, where patience is
/// used up, or the line's count of calls; Line, where the line failed. The condition is that patience isn't used up.
fn ask<L: SerialLine, P: Patience>(
    line: &mut L,
    text: &[u8],
    patience: &mut P,
) -> Result<Final, EntryError>
    requires { P.is_over patience.old ≡ false }
    ensures answered { IfOk result (λ code. IsAnswered (L.seen line.old) (L.seen line.new) text.now code) }
    ensures unanswered { result ≡ Err error.NoAnswer → IsUnanswered (L.seen line.old) (L.seen line.new) text.now }
    ensures ready { OnOk result (P.is_over patience.new ≡ false) }
    ensures waited { result ≡ Err error.NoAnswer → (P.is_over patience.new ≡ true) ⊎ (2 ^ 64 - 1 ≤ (L.seen line.new).calls) }
    ensures failed { result ≡ Err error.Line → (L.seen line.new).failures ≡ (L.seen line.old).failures + 1 }
    ensures sound { result ≢ Err error.Line → (L.seen line.new).failures ≡ (L.seen line.old).failures }
    ensures keeps_up { KeepsUp (P.asked patience.old) (P.asked patience.new) (L.seen line.old).calls (L.seen line.new).calls }
    ensures asks { result ≢ Err error.Line → AsksEach 1 (L.seen line.old) (L.seen line.new)
        (P.asked patience.old) (P.asked patience.new) (P.idle patience.old) (P.idle patience.new) }
    ensures waits { P.waits patience.new ≡ P.waits patience.old }
    ensures no_refusal { result ≢ Err error.Refused }
{
    let mut entry = Entry::new(text);
    for _ in 0..u64::MAX {
        let Ok(step) = entry.step(line) else {
            return Err(EntryError::Line);
        };
        let moved = match step {
            EntryStep::Answered(code) => return Ok(code),
            EntryStep::Moved => true,
            EntryStep::Idle => false,
        };
        if !patience.goes_on(moved) {
            return Err(EntryError::NoAnswer);
        }
    }
    Err(EntryError::NoAnswer)
}

/// Sends octets, whatever comes meanwhile. Refusals as those of `ask`.
#[tactic(auto, using(crate::proofs::EntryTries::sent_whole))]
fn send<L: SerialLine, P: Patience>(
    line: &mut L,
    octets: &[u8],
    patience: &mut P,
) -> Result<(), EntryError>
    requires { P.is_over patience.old ≡ false }
    ensures sent { OnOk result (IsSent (L.seen line.old) (L.seen line.new) octets.now) }
    ensures begun { result ≡ Err error.NoAnswer → IsPartlySent (L.seen line.old) (L.seen line.new) octets.now }
    ensures ready { OnOk result (P.is_over patience.new ≡ false) }
    ensures waited { result ≡ Err error.NoAnswer → (P.is_over patience.new ≡ true) ⊎ (2 ^ 64 - 1 ≤ (L.seen line.new).calls) }
    ensures failed { result ≡ Err error.Line → (L.seen line.new).failures ≡ (L.seen line.old).failures + 1 }
    ensures sound { result ≢ Err error.Line → (L.seen line.new).failures ≡ (L.seen line.old).failures }
    ensures keeps_up { KeepsUp (P.asked patience.old) (P.asked patience.new) (L.seen line.old).calls (L.seen line.new).calls }
    ensures asks { result ≢ Err error.Line → AsksEach 0 (L.seen line.old) (L.seen line.new)
        (P.asked patience.old) (P.asked patience.new) (P.idle patience.old) (P.idle patience.new) }
    ensures waits { P.waits patience.new ≡ P.waits patience.old }
    ensures no_refusal { result ≢ Err error.Refused }
{
    let mut entry = Entry::new(octets);
    for _ in 0..u64::MAX {
        if entry.is_sent() {
            return Ok(());
        }
        let Ok(step) = entry.step(line) else {
            return Err(EntryError::Line);
        };
        let went = match step {
            EntryStep::Answered(_) => unreachable!(),
            EntryStep::Moved => true,
            EntryStep::Idle => false,
        };
        if !patience.goes_on(went) {
            return Err(EntryError::NoAnswer);
        }
    }
    Err(EntryError::NoAnswer)
}

/// Sends as many flags as end a frame that another driver began. Refusals as those of `ask`.
fn send_fill<L: SerialLine, P: Patience>(
    line: &mut L,
    n1: u16,
    patience: &mut P,
) -> Result<(), EntryError>
    requires { P.is_over patience.old ≡ false }
    ensures sent { OnOk result (IsSent (L.seen line.old) (L.seen line.new) (fill n1)) }
    ensures begun { result ≡ Err error.NoAnswer → IsPartlySent (L.seen line.old) (L.seen line.new) (fill n1) }
    ensures ready { OnOk result (P.is_over patience.new ≡ false) }
    ensures waited { result ≡ Err error.NoAnswer → (P.is_over patience.new ≡ true) ⊎ (2 ^ 64 - 1 ≤ (L.seen line.new).calls) }
    ensures failed { result ≡ Err error.Line → (L.seen line.new).failures ≡ (L.seen line.old).failures + 1 }
    ensures sound { result ≢ Err error.Line → (L.seen line.new).failures ≡ (L.seen line.old).failures }
    ensures keeps_up { KeepsUp (P.asked patience.old) (P.asked patience.new) (L.seen line.old).calls (L.seen line.new).calls }
    ensures asks { result ≢ Err error.Line → AsksEach 0 (L.seen line.old) (L.seen line.new)
        (P.asked patience.old) (P.asked patience.new) (P.idle patience.old) (P.idle patience.new) }
    ensures waits { P.waits patience.new ≡ P.waits patience.old }
    ensures no_refusal { result ≢ Err error.Refused }
{
    for _ in 0..u32::from(n1) + 3 {
        match send(line, FLAG, patience) {
            Ok(()) => {}
            Err(why) => return Err(why),
        }
    }
    Ok(())
}

/// Reads on until patience is used up, whatever comes. Refusal: Line, where the line failed.
fn read_away<L: SerialLine, P: Patience>(line: &mut L, patience: &mut P) -> Result<(), EntryError>
    requires { P.is_over patience.old ≡ false }
    ensures sent { OnOk result (IsSent (L.seen line.old) (L.seen line.new) []) }
    ensures waited { OnOk result ((P.is_over patience.new ≡ true) ⊎ (2 ^ 64 - 1 ≤ (L.seen line.new).calls)) }
    ensures no_answer { result ≢ Err error.NoAnswer }
    ensures failed { result ≡ Err error.Line → (L.seen line.new).failures ≡ (L.seen line.old).failures + 1 }
    ensures sound { result ≢ Err error.Line → (L.seen line.new).failures ≡ (L.seen line.old).failures }
    ensures keeps_up { KeepsUp (P.asked patience.old) (P.asked patience.new) (L.seen line.old).calls (L.seen line.new).calls }
    ensures asks { result ≢ Err error.Line → AsksEach 0 (L.seen line.old) (L.seen line.new)
        (P.asked patience.old) (P.asked patience.new) (P.idle patience.old) (P.idle patience.new) }
    ensures waits { P.waits patience.new ≡ P.waits patience.old }
    ensures no_refusal { result ≢ Err error.Refused }
{
    for _ in 0..u64::MAX {
        let Ok(octet) = next_octet(line) else {
            return Err(EntryError::Line);
        };
        if !patience.goes_on(octet.is_some()) {
            return Ok(());
        }
    }
    Ok(())
}

/// Closes down a multiplexer that another driver left: the fill and a CLD frame, and then it reads on for a short wait. Refusals
/// as those of `ask`.
fn shut_down<L: SerialLine, P: Patience>(
    line: &mut L,
    n1: u16,
    patience: &mut P,
) -> Result<(), EntryError>
    requires { P.is_over patience.old ≡ false }
    ensures closed { OnOk result (IsSent (L.seen line.old) (L.seen line.new) (closing n1)) }
    ensures begun { result ≡ Err error.NoAnswer → IsPartlySent (L.seen line.old) (L.seen line.new) (closing n1) }
    ensures waited { result ≢ Err error.Line → (P.is_over patience.new ≡ true) ⊎ (2 ^ 64 - 1 ≤ (L.seen line.new).calls) }
    ensures failed { result ≡ Err error.Line → (L.seen line.new).failures ≡ (L.seen line.old).failures + 1 }
    ensures sound { result ≢ Err error.Line → (L.seen line.new).failures ≡ (L.seen line.old).failures }
    ensures keeps_up { KeepsUp (P.asked patience.old) (P.asked patience.new) (L.seen line.old).calls (L.seen line.new).calls }
    ensures asks { result ≢ Err error.Line → AsksEach 0 (L.seen line.old) (L.seen line.new)
        (P.asked patience.old) (P.asked patience.new) (P.idle patience.old) (P.idle patience.new) }
    ensures waits { P.waits patience.new ≤ P.waits patience.old + 1 }
    ensures no_refusal { result ≢ Err error.Refused }
{
    match send_fill(line, n1, patience) {
        Ok(()) => {}
        Err(why) => return Err(why),
    }
    match send(line, close_down(), patience) {
        Ok(()) => {}
        Err(why) => return Err(why),
    }
    patience.pause();
    read_away(line, patience)
}

/// One try: it asks for the ranges first where that is wanted, whatever is answered, and then sends the text.
#[tactic(auto, using(crate::proofs::EntryTries::tried_at, crate::proofs::EntryTries::tried_behind, crate::proofs::EntryTries::no_ranges_told))]
fn try_once<L: SerialLine, P: Patience>(
    line: &mut L,
    ranges: bool,
    text: &[u8],
    patience: &mut P,
) -> Result<Final, EntryError>
    requires { P.is_over patience.old ≡ false }
    ensures tried { IfOk result (λ code. IsTried (L.seen line.old) (L.seen line.new) ranges text.now code) }
    ensures unanswered { result ≡ Err error.NoAnswer → HasNoReply (L.seen line.old) (L.seen line.new) ranges text.now }
    ensures waited { result ≡ Err error.NoAnswer → (P.is_over patience.new ≡ true) ⊎ (2 ^ 64 - 1 ≤ (L.seen line.new).calls) }
    ensures failed { result ≡ Err error.Line → (L.seen line.new).failures ≡ (L.seen line.old).failures + 1 }
    ensures sound { result ≢ Err error.Line → (L.seen line.new).failures ≡ (L.seen line.old).failures }
    ensures keeps_up { KeepsUp (P.asked patience.old) (P.asked patience.new) (L.seen line.old).calls (L.seen line.new).calls }
    ensures asks { result ≢ Err error.Line → AsksEach 2 (L.seen line.old) (L.seen line.new)
        (P.asked patience.old) (P.asked patience.new) (P.idle patience.old) (P.idle patience.new) }
    ensures waits { P.waits patience.new ≡ P.waits patience.old }
    ensures no_refusal { result ≢ Err error.Refused }
{
    if ranges {
        match ask(line, RANGES, patience) {
            Ok(_) => {}
            Err(why) => return Err(why),
        }
        return ask(line, text, patience);
    }
    ask(line, text, patience)
}

/// What the final code says of the entry.
fn judge(code: Final) -> Result<(), EntryError>
    ensures entered { OnOk result (code ≡ Good) }
    ensures refused { IfErr result (λ why. (why ≡ error.Refused) × (code ≢ Good)) }
{
    match code {
        Final::Good => Ok(()),
        _ => Err(EntryError::Refused),
    }
}

/// A try; where nothing answers it, the fill, a CLD frame and a second try, and so a third.
fn try_thrice<L: SerialLine, P: Patience>(
    line: &mut L,
    n1: u16,
    ranges: bool,
    text: &[u8],
    patience: &mut P,
) -> Result<Final, EntryError>
    ensures replied { IfOk result (λ code. IsRepliedTo (L.seen line.old) (L.seen line.new) n1 ranges text.now code) }
    ensures never { result ≡ Err error.NoAnswer → IsNeverRepliedTo (L.seen line.old) (L.seen line.new) n1 ranges text.now }
    ensures waited { result ≡ Err error.NoAnswer → (P.is_over patience.new ≡ true) ⊎ (2 ^ 64 - 1 ≤ (L.seen line.new).calls) }
    ensures failed { result ≡ Err error.Line → (L.seen line.new).failures ≡ (L.seen line.old).failures + 1 }
    ensures sound { result ≢ Err error.Line → (L.seen line.new).failures ≡ (L.seen line.old).failures }
    ensures keeps_up { KeepsUp (P.asked patience.old) (P.asked patience.new) (L.seen line.old).calls (L.seen line.new).calls }
    ensures asks { result ≢ Err error.Line → AsksEach 6 (L.seen line.old) (L.seen line.new)
        (P.asked patience.old) (P.asked patience.new) (P.idle patience.old) (P.idle patience.new) }
    ensures waits { P.waits patience.new ≤ P.waits patience.old + 7 }
    ensures no_refusal { result ≢ Err error.Refused }
{
    for _ in 0..2u32 {
        patience.renew();
        match try_once(line, ranges, text, patience) {
            Ok(code) => return Ok(code),
            Err(EntryError::NoAnswer) => {}
            Err(why) => return Err(why),
        }
        patience.renew();
        match shut_down(line, n1, patience) {
            Ok(()) => {}
            Err(why) => return Err(why),
        }
    }
    patience.renew();
    try_once(line, ranges, text, patience)
}

/// Enters the multiplexer with the caller's text: any octets, CR included, as `AT+CMUX=0,0,5,127` and CR. With `ranges` it asks
/// `AT+CMUX=?` first, and goes on whatever is answered. It reads on to the first line that is a final code, however much comes before.
/// Patience is asked after each step. It is renewed before each try and before the flags.
///
/// Where nothing answers, a driver that was killed may have left the modem in the multiplexer, and in the middle of a frame. So it sends
/// N1 + 3 flags, which end that frame, and a CLD frame, reads on for a short wait and tries again: three times in all. N1 is the most
/// octets of information in a frame of that driver.
///
/// Refusals: 1 Refused, where the code isn't `OK`; 2 NoAnswer, where patience ran out in the third try or while flags and CLD
/// went, or where the line has counted `u64::MAX` calls; 3 Line, where the line failed.
#[tactic(auto, using(crate::proofs::EntryTries::turned_down))]
pub fn enter_by<L: SerialLine, P: Patience>(
    line: &mut L,
    n1: u16,
    ranges: bool,
    text: &[u8],
    patience: &mut P,
) -> Result<(), EntryError>
    ensures entered { OnOk result (IsRepliedTo (L.seen line.old) (L.seen line.new) n1 ranges text.now Good) }
    ensures not_entered { IfErr result (λ why. SaysWhy why (L.seen line.old) (L.seen line.new) n1 ranges text.now) }
    ensures waited { result ≡ Err error.NoAnswer → (P.is_over patience.new ≡ true) ⊎ (2 ^ 64 - 1 ≤ (L.seen line.new).calls) }
    ensures sound { result ≢ Err error.Line → (L.seen line.new).failures ≡ (L.seen line.old).failures }
    ensures keeps_up { KeepsUp (P.asked patience.old) (P.asked patience.new) (L.seen line.old).calls (L.seen line.new).calls }
    ensures asks { result ≢ Err error.Line → AsksEach 6 (L.seen line.old) (L.seen line.new)
        (P.asked patience.old) (P.asked patience.new) (P.idle patience.old) (P.idle patience.new) }
    ensures waits { P.waits patience.new ≤ P.waits patience.old + 7 }
{
    match try_thrice(line, n1, ranges, text, patience) {
        Ok(code) => judge(code),
        Err(why) => Err(why),
    }
}
