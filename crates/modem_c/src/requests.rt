//! Requests.
ghost use Rattle.std.specs.Prelude.{◌≡◌, ◌≢◌, ◌<◌, ◌≤◌, ◌↔◌, ◌⊎◌, ◌+◌, length, None, Some, IfOk, IfErr, OnOk, OnErr};
ghost use Rattle.at_text.specs.Commands.{refusal_of};
ghost use Rattle.at_text.specs.Numbers.{text_error_number};
ghost use Rattle.at_text.specs.declared.error.TextError.{TextError};
ghost use Rattle.modem_desk.specs.declared.request.Ask.TheVariants as Ask;
ghost use Rattle.modem_driver.specs.Endpoints.{IsFull, Numbers, Refuses};
ghost use Rattle.modem_driver.specs.Numbers.{request_error_number};
ghost use Rattle.modem_driver.specs.declared.endpoint.error.RequestError.TheVariants as why;
ghost use Rattle.modem_c.specs.Calls.{Goes, Holds, NumbersAt, endpoint_of};

use crate::driver::Cimbaloty;
use crate::numbers::{BAD_DLCI, FULL, LONG_PROBE, NO_DRIVER, NO_MEMORY, OK, TEXT};
use at_text::{CommandLine, TextError};
use modem_driver::{Endpoint, RequestError, RequestRefused};
use mux_frame::{Dlci, ProbeData};
use std::alloc::Global;

/// Hands out the number of a request, or says the number of its refusal.
fn answer(asked: Result<u64, RequestError>, number: &mut u64) -> u8
    ensures ok { IfOk asked (λ n. number.new ≡ n) }
    ensures is_ok { OnOk asked (result ≡ OK) }
    ensures refused { IfErr asked (λ e. result ≡ request_error_number e) }
    ensures same { OnErr asked (number.new ≡ number.old) }
{
    match asked {
        Ok(n) => {
            *number = n;
            OK
        }
        Err(why) => why.number(),
    }
}

/// Why a request wasn't taken, without what it asked for.
fn without_ask(asked: Result<u64, RequestRefused>) -> Result<u64, RequestError>
    ensures ok { IfOk asked (λ n. result ≡ Ok n) }
    ensures err { IfErr asked (λ e. result ≡ Err e.why) }
{
    match asked {
        Ok(n) => Ok(n),
        Err(refused) => Err(refused.why),
    }
}

/// Asks for a connection to be opened.
fn open(endpoint: &mut Endpoint, dlci: Dlci) -> Result<u64, RequestError>
    ensures takes { IfOk result (λ n. NumbersAt endpoint.old endpoint.new Ask.OpenChannel dlci.number n) }
    ensures refused { OnErr result (Refuses endpoint.old endpoint.new) }
    ensures full { IfErr result (λ e. (e ≡ why.Full) ↔ IsFull endpoint.new) }
{
    endpoint.open(dlci)
}

/// Asks for a connection to be closed.
fn close(endpoint: &mut Endpoint, dlci: Dlci) -> Result<u64, RequestError>
    ensures takes { IfOk result (λ n. NumbersAt endpoint.old endpoint.new Ask.CloseChannel dlci.number n) }
    ensures refused { OnErr result (Refuses endpoint.old endpoint.new) }
    ensures full { IfErr result (λ e. (e ≡ why.Full) ↔ IsFull endpoint.new) }
{
    endpoint.close(dlci)
}

/// Asks for a command line to be sent on a connection and its answer read. The condition is that the line
/// has this text.
fn command(
    endpoint: &mut Endpoint,
    dlci: Dlci,
    line: CommandLine,
    text: &[u8],
) -> Result<u64, RequestError>
    requires { line ≡ text.now }
    ensures takes { IfOk result (λ n.
        NumbersAt endpoint.old endpoint.new (λ d. Ask.Command d text.now) dlci.number n) }
    ensures refused { OnErr result (Refuses endpoint.old endpoint.new) }
    ensures full { IfErr result (λ e. (e ≡ why.Full) ↔ IsFull endpoint.new) }
{
    let _text = text;
    without_ask(endpoint.command(dlci, line))
}

/// Asks for a connection to be opened, and hands out the request's number.
#[unsafe(no_mangle)]
pub extern "C" fn cimbaloty_open(alloc: Global, c: &mut Cimbaloty, dlci: u8, number: &mut u64) -> u8
    ensures takes { result ≡ OK → Goes c.old c.new (λ e f.
        NumbersAt e f Ask.OpenChannel dlci number.new) }
    ensures refused { (result ≡ NO_MEMORY) ⊎ (result ≡ FULL) → Goes c.old c.new Refuses }
    ensures full { result ≡ FULL → Holds c.new IsFull }
    ensures not_full { result ≡ NO_MEMORY → Holds c.new (λ f. ¬ IsFull f) }
    ensures no_driver { (result ≡ NO_DRIVER) ↔ (endpoint_of c.old ≡ None) }
    ensures bad_dlci { endpoint_of c.old ≢ None → ((result ≡ BAD_DLCI) ↔ (61 < dlci)) }
    ensures stays { (result ≡ NO_DRIVER) ⊎ (result ≡ BAD_DLCI) → endpoint_of c.new ≡ endpoint_of c.old }
    ensures same { result ≢ OK → number.new ≡ number.old }
    ensures others { result ≢ OK → result ≢ NO_MEMORY → result ≢ FULL → result ≢ NO_DRIVER → result ≡ BAD_DLCI }
{
    if !c.is_open() {
        return NO_DRIVER;
    }
    let Some(dlci) = Dlci::new(dlci) else {
        return BAD_DLCI;
    };
    let Some(mut endpoint) = c.take(alloc) else {
        return NO_DRIVER;
    };
    let asked = open(&mut endpoint, dlci);
    *c = Cimbaloty::of(endpoint);
    answer(asked, number)
}

/// Asks for a connection to be closed, and hands out the request's number.
#[unsafe(no_mangle)]
pub extern "C" fn cimbaloty_close(
    alloc: Global,
    c: &mut Cimbaloty,
    dlci: u8,
    number: &mut u64,
) -> u8
    ensures takes { result ≡ OK → Goes c.old c.new (λ e f.
        NumbersAt e f Ask.CloseChannel dlci number.new) }
    ensures refused { (result ≡ NO_MEMORY) ⊎ (result ≡ FULL) → Goes c.old c.new Refuses }
    ensures full { result ≡ FULL → Holds c.new IsFull }
    ensures not_full { result ≡ NO_MEMORY → Holds c.new (λ f. ¬ IsFull f) }
    ensures no_driver { (result ≡ NO_DRIVER) ↔ (endpoint_of c.old ≡ None) }
    ensures bad_dlci { endpoint_of c.old ≢ None → ((result ≡ BAD_DLCI) ↔ (61 < dlci)) }
    ensures stays { (result ≡ NO_DRIVER) ⊎ (result ≡ BAD_DLCI) → endpoint_of c.new ≡ endpoint_of c.old }
    ensures same { result ≢ OK → number.new ≡ number.old }
    ensures others { result ≢ OK → result ≢ NO_MEMORY → result ≢ FULL → result ≢ NO_DRIVER → result ≡ BAD_DLCI }
{
    if !c.is_open() {
        return NO_DRIVER;
    }
    let Some(dlci) = Dlci::new(dlci) else {
        return BAD_DLCI;
    };
    let Some(mut endpoint) = c.take(alloc) else {
        return NO_DRIVER;
    };
    let asked = close(&mut endpoint, dlci);
    *c = Cimbaloty::of(endpoint);
    answer(asked, number)
}

/// What is answered where there is no memory for the text of a request: Full comes first.
fn without_text(alloc: Global, c: &mut Cimbaloty) -> u8
    ensures full { result ≡ FULL → Holds c.new IsFull }
    ensures not_full { result ≡ NO_MEMORY → Holds c.new (λ f. ¬ IsFull f) }
    ensures no_driver { (result ≡ NO_DRIVER) ↔ (endpoint_of c.old ≡ None) }
    ensures stays { endpoint_of c.new ≡ endpoint_of c.old }
    ensures others { result ≢ NO_MEMORY → result ≢ FULL → result ≡ NO_DRIVER }
{
    let Some(endpoint) = c.take(alloc) else {
        return NO_DRIVER;
    };
    let is_full = endpoint.is_full();
    *c = Cimbaloty::of(endpoint);
    if is_full { FULL } else { NO_MEMORY }
}

/// Asks for a command line to be sent on a connection and its answer read, and hands out the request's
/// number.
#[unsafe(no_mangle)]
pub extern "C" fn cimbaloty_command_at(
    alloc: Global,
    c: &mut Cimbaloty,
    dlci: u8,
    text: &[u8],
    number: &mut u64,
) -> u8
    ensures takes { result ≡ OK → Goes c.old c.new (λ e f.
        NumbersAt e f (λ d. Ask.Command d text.now) dlci number.new) }
    ensures refused { (result ≡ NO_MEMORY) ⊎ (result ≡ FULL) → Goes c.old c.new Refuses }
    ensures full { result ≡ FULL → Holds c.new IsFull }
    ensures not_full { result ≡ NO_MEMORY → Holds c.new (λ f. ¬ IsFull f) }
    ensures no_driver { (result ≡ NO_DRIVER) ↔ (endpoint_of c.old ≡ None) }
    ensures bad_dlci { endpoint_of c.old ≢ None → ((result ≡ BAD_DLCI) ↔ (61 < dlci)) }
    ensures bad_text { endpoint_of c.old ≢ None → dlci ≤ 61 → (e : TextError) → refusal_of text.now ≡ Some e
        → result ≡ TEXT + text_error_number e }
    ensures good_text { refusal_of text.now ≡ None → result < TEXT }
    ensures stays { NO_DRIVER ≤ result → endpoint_of c.new ≡ endpoint_of c.old }
    ensures same { result ≢ OK → number.new ≡ number.old }
    ensures others { result < TEXT → result ≢ OK → result ≢ NO_MEMORY → result ≢ FULL → result ≢ NO_DRIVER
        → result ≡ BAD_DLCI }
{
    if !c.is_open() {
        return NO_DRIVER;
    }
    let Some(dlci) = Dlci::new(dlci) else {
        return BAD_DLCI;
    };
    let line = match CommandLine::new(alloc, text) {
        Ok(line) => line,
        Err(TextError::NoMemory) => return without_text(alloc, c),
        Err(why) => return TEXT + why.number(),
    };
    let Some(mut endpoint) = c.take(alloc) else {
        return NO_DRIVER;
    };
    let asked = command(&mut endpoint, dlci, line, text);
    *c = Cimbaloty::of(endpoint);
    answer(asked, number)
}

/// Asks for octets to be sent back by the other end, and hands out the request's number.
#[unsafe(no_mangle)]
pub extern "C" fn cimbaloty_probe_at(
    alloc: Global,
    c: &mut Cimbaloty,
    octets: &[u8],
    number: &mut u64,
) -> u8
    ensures takes { result ≡ OK → Goes c.old c.new (λ e f. Numbers e f (Ask.Probe octets.now) number.new) }
    ensures refused { (result ≡ NO_MEMORY) ⊎ (result ≡ FULL) → Goes c.old c.new Refuses }
    ensures full { result ≡ FULL → Holds c.new IsFull }
    ensures not_full { result ≡ NO_MEMORY → Holds c.new (λ f. ¬ IsFull f) }
    ensures no_driver { (result ≡ NO_DRIVER) ↔ (endpoint_of c.old ≡ None) }
    ensures long { endpoint_of c.old ≢ None → ((result ≡ LONG_PROBE) ↔ (16 < length octets.now)) }
    ensures stays { (result ≡ NO_DRIVER) ⊎ (result ≡ LONG_PROBE) → endpoint_of c.new ≡ endpoint_of c.old }
    ensures same { result ≢ OK → number.new ≡ number.old }
    ensures others { result ≢ OK → result ≢ NO_MEMORY → result ≢ FULL → result ≢ NO_DRIVER → result ≡ LONG_PROBE }
{
    if !c.is_open() {
        return NO_DRIVER;
    }
    let Some(octets) = ProbeData::new(octets) else {
        return LONG_PROBE;
    };
    let Some(mut endpoint) = c.take(alloc) else {
        return NO_DRIVER;
    };
    let asked = without_ask(endpoint.probe(octets));
    *c = Cimbaloty::of(endpoint);
    answer(asked, number)
}

/// Asks for the multiplexer to be ended, and hands out the request's number.
#[unsafe(no_mangle)]
pub extern "C" fn cimbaloty_stop(alloc: Global, c: &mut Cimbaloty, number: &mut u64) -> u8
    ensures takes { result ≡ OK → Goes c.old c.new (λ e f. Numbers e f Ask.Stop number.new) }
    ensures refused { (result ≡ NO_MEMORY) ⊎ (result ≡ FULL) → Goes c.old c.new Refuses }
    ensures full { result ≡ FULL → Holds c.new IsFull }
    ensures not_full { result ≡ NO_MEMORY → Holds c.new (λ f. ¬ IsFull f) }
    ensures no_driver { (result ≡ NO_DRIVER) ↔ (endpoint_of c.old ≡ None) }
    ensures stays { result ≡ NO_DRIVER → endpoint_of c.new ≡ endpoint_of c.old }
    ensures same { result ≢ OK → number.new ≡ number.old }
    ensures others { result ≢ OK → result ≢ NO_MEMORY → result ≢ FULL → result ≡ NO_DRIVER }
{
    let Some(mut endpoint) = c.take(alloc) else {
        return NO_DRIVER;
    };
    let asked = endpoint.stop();
    *c = Cimbaloty::of(endpoint);
    answer(asked, number)
}
