//! Lines of commands with values.
ghost use Rattle.std.specs.Prelude.{◌≡◌, ◌++◌, ◌<◌, None, Err, OnOk, MatchResult, if◌then◌else◌, nat_le, MatchBool, codes};
ghost use Rattle.std.specs.List.{list_all};
ghost use Rattle.at_text.specs.Commands.{refusal_of};
ghost use Rattle.at_cmds.specs.Forms.{numeral, in_quotes, is_pin, is_oper, is_apn, is_in_apn, is_cid, is_mode};
ghost use Rattle.at_cmds.specs.Commands.{pdp_text, context_text};

use crate::command::Pdp;
use crate::error::CmdError;
use crate::forms::{is_pin, push_quoted};
use at_text::CommandLine;
use at_text::octets::all_digits;
use std::alloc::{AllocError, Global};

/// The command line of this text.
pub(crate) fn fixed_line(alloc: Global, text: &[u8]) -> Result<CommandLine, CmdError>
    requires { refusal_of text.now ≡ None }
    ensures { MatchResult result (λ line. line ≡ text.now) (λ why. why ≡ CmdError.NoMemory) }
{
    match CommandLine::new(alloc, text) {
        Ok(line) => Ok(line),
        Err(_) => Err(CmdError::NoMemory),
    }
}

#[tactic(auto, using(crate::proofs::command_texts::CommandLines::pin_fits))]
pub(crate) fn pin_line(alloc: Global, pin: &[u8]) -> Result<CommandLine, CmdError>
    ensures { MatchBool (is_pin pin.now)
        (MatchResult result (λ line. line ≡ codes "AT+CPIN=" ++ in_quotes pin.now)
        (λ why. why ≡ CmdError.NoMemory))
        (result ≡ Err CmdError.BadPin) }
{
    if !is_pin(pin) {
        return Err(CmdError::BadPin);
    }
    quoted_line(alloc, b"AT+CPIN=", pin)
}

#[tactic(auto, using(crate::proofs::command_texts::CommandLines::oper_fits))]
pub(crate) fn oper_line(alloc: Global, oper: &[u8]) -> Result<CommandLine, CmdError>
    ensures { MatchBool (is_oper oper.now)
        (MatchResult result (λ line. line ≡ codes "AT+COPS=1,2," ++ in_quotes oper.now)
        (λ why. why ≡ CmdError.NoMemory))
        (result ≡ Err CmdError.BadNumber) }
{
    if !is_oper(oper) {
        return Err(CmdError::BadNumber);
    }
    quoted_line(alloc, b"AT+COPS=1,2,", oper)
}

/// A command whose value is a number from 0 to 2.
pub(crate) fn mode_line(alloc: Global, head: &[u8], n: u8) -> Result<CommandLine, CmdError>
    requires { n < 3 → refusal_of (head.now ++ numeral n) ≡ None }
    ensures { MatchBool (is_mode n)
        (MatchResult result (λ line. line ≡ head.now ++ numeral n) (λ why. why ≡ CmdError.NoMemory))
        (result ≡ Err CmdError.BadNumber) }
{
    if n > 2 {
        return Err(CmdError::BadNumber);
    }
    let mut line = Vec::from_slice(alloc, head)?;
    push_number(&mut line, n)?;
    fixed_line(alloc, &line)
}

#[tactic(auto, using(crate::proofs::command_texts::CommandLines::context_fits))]
pub(crate) fn context_line(
    alloc: Global,
    cid: u8,
    pdp: Pdp,
    apn: &[u8],
) -> Result<CommandLine, CmdError>
    ensures { MatchBool (is_apn apn.now)
        (MatchBool (is_cid cid)
        (MatchResult result (λ line. line ≡ context_text cid pdp apn.now) (λ why. why ≡ CmdError.NoMemory))
        (result ≡ Err CmdError.BadNumber))
        (result ≡ Err CmdError.BadApn) }
{
    if !is_apn(apn) {
        return Err(CmdError::BadApn);
    }
    if cid < 1 || cid > 15 {
        return Err(CmdError::BadNumber);
    }
    let mut line = Vec::from_slice(alloc, b"AT+CGDCONT=")?;
    push_number(&mut line, cid)?;
    line.push(b',')?;
    push_quoted(&mut line, pdp.name().as_bytes())?;
    line.push(b',')?;
    push_quoted(&mut line, apn)?;
    fixed_line(alloc, &line)
}

fn quoted_line(alloc: Global, head: &[u8], text: &[u8]) -> Result<CommandLine, CmdError>
    requires { refusal_of (head.now ++ in_quotes text.now) ≡ None }
    ensures { MatchResult result (λ line. line ≡ head.now ++ in_quotes text.now)
        (λ why. why ≡ CmdError.NoMemory) }
{
    let mut line = Vec::from_slice(alloc, head)?;
    push_quoted(&mut line, text)?;
    fixed_line(alloc, &line)
}

fn push_number(line: &mut Vec<u8>, n: u8) -> Result<(), AllocError>
    requires { n < 100 }
    ensures { OnOk result (line.new.items ≡ line.old.items ++ numeral n) }
{
    if n >= 10 {
        line.push(b'0' + n / 10)?;
    }
    line.push(b'0' + n % 10)?;
    Ok(())
}

pub(crate) fn is_oper(text: &[u8]) -> bool
    ensures { result ≡ is_oper text.now }
{
    all_digits(text) && text.len() >= 5 && text.len() <= 6
}

pub(crate) fn is_apn(text: &[u8]) -> bool
    ensures { result ≡ is_apn text.now }
{
    all_in_apn(text) && !text.is_empty() && text.len() <= 63
}

fn all_in_apn(text: &[u8]) -> bool
    ensures { result ≡ list_all is_in_apn text.now }
{
    text.iter().all(|octet| octet.is_ascii_alphanumeric() || *octet == b'.' || *octet == b'-')
}
