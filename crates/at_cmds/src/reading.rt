//! Reads commands that set values.
ghost use Rattle.std.specs.Prelude.{◌≡◌, length, drop, option_map, MatchOption};
ghost use Rattle.at_cmds.specs.Params.{parameters};
ghost use Rattle.at_cmds.specs.Values.{Gives, HasHead, Cpin, Creg, Cops, Cgdcont, Cmee, command_in, set_in, after_equals, pin_in, mode_in, oper_in, pdp_in, context_value, context_set_in};

use crate::command::{Command, OperChoice, Pdp};
use crate::error::CmdError;
use crate::forms::{cid_in, is_pin, numeral_in};
use crate::params::first_param;
use crate::texts::{Apn, OperNumber, Pin};
use crate::values::unquoted;
use crate::writing::{is_apn, is_oper};
use std::alloc::Global;

/// What follows this beginning of a text, with its letters in either case, if the text has it.
fn after_head<'a>(text: &'a [u8], head: &[u8]) -> Option<&'a [u8]>
    ensures { MatchOption result (¬ HasHead head.now text.now)
        (λ value. HasHead head.now text.now × (value.now ≡ drop (length head.now) text.now)) }
{
    let (front, value) = text.split_at_checked(head.len())?;
    if !front.eq_ignore_ascii_case(head) {
        return None;
    }
    Some(value)
}

/// The command that a text sets values by.
#[tactic(auto, using(crate::proofs::command_texts::ReadCommands::set_none))]
pub(crate) fn set_command(alloc: Global, text: &[u8]) -> Result<Option<Command>, CmdError>
    ensures { Gives result (set_in text.now) }
{
    if let Some(value) = after_head(text, b"AT+CPIN") {
        return pin_command(alloc, value);
    }
    if let Some(value) = after_head(text, b"AT+CREG") {
        return Ok(reg_command(value));
    }
    if let Some(value) = after_head(text, b"AT+COPS") {
        return oper_command(alloc, value);
    }
    if let Some(value) = after_head(text, b"AT+CGDCONT") {
        return context_command(alloc, value);
    }
    if let Some(value) = after_head(text, b"AT+CMEE") {
        return Ok(error_mode_command(value));
    }
    Ok(None)
}

#[tactic(auto, unfolding(crate::specs::Values::command_in))]
fn pin_command(alloc: Global, value: &[u8]) -> Result<Option<Command>, CmdError>
    ensures { Gives result (command_in Cpin value.now) }
{
    let Some(pin) = pin_in(value) else {
        return Ok(None);
    };
    let pin = Pin::from(Vec::from_slice(alloc, pin)?);
    Ok(Some(Command::PinEnter(pin)))
}

#[tactic(auto, unfolding(crate::specs::Values::command_in))]
fn reg_command(value: &[u8]) -> Option<Command>
    ensures { result ≡ command_in Creg value.now }
{
    Some(Command::RegReport(mode_in(value)?))
}

#[tactic(auto, unfolding(crate::specs::Values::command_in))]
fn oper_command(alloc: Global, value: &[u8]) -> Result<Option<Command>, CmdError>
    ensures { Gives result (command_in Cops value.now) }
{
    let Some(oper) = oper_in(value) else {
        return Ok(None);
    };
    let oper = OperNumber::from(Vec::from_slice(alloc, oper)?);
    Ok(Some(Command::OperChoose(OperChoice::Manual(oper))))
}

#[tactic(auto, unfolding(crate::specs::Values::command_in))]
fn context_command(alloc: Global, value: &[u8]) -> Result<Option<Command>, CmdError>
    ensures { Gives result (command_in Cgdcont value.now) }
{
    let Some((cid, pdp, apn)) = context_set_in(value) else {
        return Ok(None);
    };
    let apn = Apn::from(Vec::from_slice(alloc, apn)?);
    Ok(Some(Command::ContextSet { cid, pdp, apn }))
}

#[tactic(auto, unfolding(crate::specs::Values::command_in))]
fn error_mode_command(value: &[u8]) -> Option<Command>
    ensures { result ≡ command_in Cmee value.now }
{
    Some(Command::ErrorMode(mode_in(value)?))
}

/// A text behind an equals sign.
fn after_equals(value: &[u8]) -> Option<&[u8]>
    ensures { option_map (λ text. text.now) result ≡ after_equals value.now }
{
    match value {
        [b'=', text @ ..] => Some(text),
        _ => None,
    }
}

fn pin_in(value: &[u8]) -> Option<&[u8]>
    ensures { option_map (λ pin. pin.now) result ≡ pin_in value.now }
{
    let pin = unquoted(after_equals(value)?)?;
    if !is_pin(pin) {
        return None;
    }
    Some(pin)
}

fn mode_in(value: &[u8]) -> Option<u8>
    ensures { result ≡ mode_in value.now }
{
    let n = numeral_in(after_equals(value)?)?;
    if n > 2 {
        return None;
    }
    Some(n)
}

fn oper_in(value: &[u8]) -> Option<&[u8]>
    ensures { option_map (λ oper. oper.now) result ≡ oper_in value.now }
{
    if !value.starts_with(b"=1,2,") {
        return None;
    }
    let oper = unquoted(&value[5..])?;
    if !is_oper(oper) {
        return None;
    }
    Some(oper)
}

fn pdp_in(text: &[u8]) -> Option<Pdp>
    ensures { result ≡ pdp_in text.now }
{
    if text == b"IP".as_slice() {
        Some(Pdp::Ip)
    } else if text == b"IPV6".as_slice() {
        Some(Pdp::Ipv6)
    } else if text == b"IPV4V6".as_slice() {
        Some(Pdp::Ipv4v6)
    } else {
        None
    }
}

fn context_set_in(value: &[u8]) -> Option<(u8, Pdp, &[u8])>
    ensures { option_map (λ context. (context.0, context.1, context.2.now)) result
        ≡ context_set_in value.now }
{
    context_in(after_equals(value)?)
}

/// A context's number, its kind and its access point's name, and nothing behind them.
#[tactic(auto, using(crate::proofs::values_read::ParameterCounts::too_many))]
fn context_in(text: &[u8]) -> Option<(u8, Pdp, &[u8])>
    ensures { option_map (λ context. (context.0, context.1, context.2.now)) result
        ≡ context_value (parameters text.now) }
{
    let (cid, rest) = first_param(text);
    let (pdp, rest) = first_param(rest?);
    let (apn, rest) = first_param(rest?);
    let None = rest else {
        return None;
    };
    let cid = cid_in(cid)?;
    let pdp = pdp_in(unquoted(pdp)?)?;
    let apn = unquoted(apn)?;
    if !is_apn(apn) {
        return None;
    }
    Some((cid, pdp, apn))
}
