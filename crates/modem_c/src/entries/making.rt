//! Makes and frees entries.
ghost use Rattle.std.specs.Prelude.{◌≡◌, ◌≢◌, ◌<◌, ◌≤◌, ◌↔◌, ◌⊎◌, ◌+◌, None, Some, IfOk, IfSome};
ghost use Rattle.mux_frame.specs.Spelling.{IsBadN1};
ghost use Rattle.at_text.specs.Commands.{refusal_of};
ghost use Rattle.at_text.specs.Numbers.{text_error_number};
ghost use Rattle.at_text.specs.declared.error.TextError.{TextError};
ghost use Rattle.modem_c.specs.Entries.{closing_text, entry_begun, entry_line};
ghost use Rattle.modem_c.specs.EntryCalls.{Enters, entry_of};

use crate::entries::asking::Asking;
use crate::entries::entering::Entering;
use crate::entries::kept::CimbalotyEntry;
use crate::numbers::{BAD_N1, HAS_ENTRY, NO_MEMORY, OK, TEXT};
use at_text::{CommandLine, TextError};
use modem_driver::close_down;
use mux_frame::N1;
use std::alloc::{AllocError, Global};

const FLAG: u8 = 0xF9;

/// What an unfinished frame may lack beside its information: address, control and check octet.
const BESIDE: usize = 3;

/// A command line, and a CR behind it.
fn entry_line(alloc: Global, text: &[u8]) -> Result<Vec<u8>, AllocError>
    ensures { IfOk result (λ v. v.items ≡ entry_line text.now) }
{
    let mut line = Vec::from_slice(alloc, text)?;
    line.push(b'\r')?;
    Ok(line)
}

/// What closes down a modem that was left in the multiplexer.
fn closing_text(alloc: Global, n1: N1) -> Result<Vec<u8>, AllocError>
    ensures { IfOk result (λ v. v.items ≡ closing_text n1.octets) }
{
    let mut text = vec![in alloc; FLAG; usize::from(n1.octets) + BESIDE]?;
    text.extend_from_slice(close_down())?;
    text.push(b'\r')?;
    Ok(text)
}

/// An entry by this command line, which is sent so many times more at most.
fn make(alloc: Global, text: &[u8], n1: N1, left: u8) -> Option<Box<Entering>>
    ensures { IfSome result (λ b. b.value ≡ entry_begun text.now n1.octets left) }
{
    let Ok(line) = entry_line(alloc, text) else {
        return None;
    };
    let Ok(closing) = closing_text(alloc, n1) else {
        return None;
    };
    let entry = Entering {
        asking: Asking::new(line),
        closing: Asking::new(closing),
        is_closing: false,
        left,
    };
    match Box::new(alloc, entry) {
        Ok(entry) => Some(entry),
        Err(_) => None,
    }
}

/// What speaks against a command line, if anything does.
fn text_refusal(alloc: Global, text: &[u8]) -> Option<TextError>
    ensures some { (e : TextError) → refusal_of text.now ≡ Some e → result ≡ Some e }
    ensures none { refusal_of text.now ≡ None → (result ≡ None) ⊎ (result ≡ Some TextError.NoMemory) }
{
    match CommandLine::new(alloc, text) {
        Ok(_) => None,
        Err(why) => Some(why),
    }
}

/// The number of the refusal of a text.
fn refusal_number(why: TextError) -> u8
    ensures memory { why ≡ TextError.NoMemory → result ≡ NO_MEMORY }
    ensures others { why ≢ TextError.NoMemory → result ≡ TEXT + text_error_number why }
{
    match why {
        TextError::NoMemory => NO_MEMORY,
        _ => TEXT + why.number(),
    }
}

/// Begins an entry where there is none, by this command line without its CR, which may be sent `left`
/// times more. N1 is that of a driver that may have left the modem in the multiplexer.
#[unsafe(no_mangle)]
pub extern "C" fn cimbaloty_enter_begin_at(
    alloc: Global,
    e: &mut CimbalotyEntry,
    text: &[u8],
    n1: u16,
    left: u8,
) -> u8
    ensures made { result ≡ OK → Enters e.new (λ s. s ≡ entry_begun text.now n1 left) }
    ensures has_entry { (result ≡ HAS_ENTRY) ↔ (entry_of e.old ≢ None) }
    ensures bad_n1 { entry_of e.old ≡ None → ((result ≡ BAD_N1) ↔ IsBadN1 n1) }
    ensures bad_text { entry_of e.old ≡ None → 31 ≤ n1 → n1 ≤ 32767 → (why : TextError) → refusal_of text.now ≡ Some why
        → result ≡ TEXT + text_error_number why }
    ensures good_text { refusal_of text.now ≡ None → result < TEXT }
    ensures refused { result ≢ OK → entry_of e.new ≡ entry_of e.old }
    ensures others { result < TEXT → result ≢ OK → result ≢ NO_MEMORY → result ≢ BAD_N1 → result ≡ HAS_ENTRY }
{
    if e.is_there() {
        return HAS_ENTRY;
    }
    let Some(n1) = N1::new(n1) else {
        return BAD_N1;
    };
    if let Some(why) = text_refusal(alloc, text) {
        return refusal_number(why);
    }
    match make(alloc, text, n1, left) {
        Some(entry) => {
            *e = CimbalotyEntry::of(entry);
            OK
        }
        None => NO_MEMORY,
    }
}

/// Gives an entry up, if there is one.
#[unsafe(no_mangle)]
pub extern "C" fn cimbaloty_enter_free(alloc: Global, e: &mut CimbalotyEntry)
    ensures { entry_of e.new ≡ None }
{
    drop(e.take(alloc));
}
