//! Makes and frees drivers.
ghost use Rattle.std.specs.Prelude.{◌≡◌, ◌≢◌, ◌<◌, ◌≤◌, ◌↔◌, None, IfSome};
ghost use Rattle.mux_frame.specs.Spelling.{IsBadN1};
ghost use Rattle.at_text.specs.Rules.{dialect_of};
ghost use Rattle.modem_driver.specs.Endpoints.{Begins, BeginsBy, endpoint_by, new_endpoint};
ghost use Rattle.modem_c.specs.Calls.{Holds, endpoint_of};
ghost use Rattle.modem_c.specs.DialectCalls.{Has, rules_of};
ghost use Rattle.modem_c.specs.Numbers.{kinds_in, kinds_of_sets};

use crate::dialects::CimbalotyDialect;
use crate::driver::Cimbaloty;
use crate::kinds::{kinds_in, kinds_of_sets};
use crate::numbers::{BAD_KINDS, BAD_N1, HAS_DRIVER, NO_DIALECT, NO_MEMORY, OK};
use at_text::Dialect;
use modem_driver::Endpoint;
use mux_frame::N1;
use std::alloc::Global;

/// A value in a box; nothing where there is no memory for it. It may be any value here, so this proves at little cost.
fn boxed<T: Drop>(alloc: Global, value: T) -> Option<Box<T>>
    ensures { IfSome result (λ b. b.value ≡ value) }
{
    match Box::new(alloc, value) {
        Ok(kept) => Some(kept),
        Err(_) => None,
    }
}

/// An endpoint at a modem of the standard's codes, which listens to the kinds of a set.
fn make_standard(alloc: Global, n1: N1, kinds: u8, first: u64) -> Option<Box<Endpoint>>
    ensures made { IfSome result (λ b. b.value ≡ new_endpoint n1.octets (kinds_in kinds) first) }
    ensures begins { IfSome result (λ b. Begins n1.octets (kinds_in kinds) b.value) }
{
    let Ok(kinds) = kinds_in(alloc, kinds) else {
        return None;
    };
    match Endpoint::new(alloc, n1.octets, kinds.as_slice(), first) {
        Ok(endpoint) => boxed(alloc, endpoint),
        Err(_) => None,
    }
}

/// Makes a driver where there is none.
#[unsafe(no_mangle)]
pub extern "C" fn cimbaloty_new(
    alloc: Global,
    c: &mut Cimbaloty,
    n1: u16,
    kinds: u8,
    first: u64,
) -> u8
    ensures made { result ≡ OK → Holds c.new (λ e. e ≡ new_endpoint n1 (kinds_in kinds) first) }
    ensures begins { result ≡ OK → Holds c.new (λ e. Begins n1 (kinds_in kinds) e) }
    ensures has_driver { (result ≡ HAS_DRIVER) ↔ (endpoint_of c.old ≢ None) }
    ensures bad_kinds { endpoint_of c.old ≡ None → ((result ≡ BAD_KINDS) ↔ (127 < kinds)) }
    ensures bad_n1 { endpoint_of c.old ≡ None → kinds ≤ 127
        → ((result ≡ BAD_N1) ↔ IsBadN1 n1) }
    ensures refused { result ≢ OK → endpoint_of c.new ≡ endpoint_of c.old }
    ensures others { result ≢ OK → result ≢ NO_MEMORY → result ≢ BAD_N1 → result ≢ HAS_DRIVER
        → result ≡ BAD_KINDS }
{
    if c.is_open() {
        return HAS_DRIVER;
    }
    if kinds > 127 {
        return BAD_KINDS;
    }
    let Some(n1) = N1::new(n1) else {
        return BAD_N1;
    };
    match make_standard(alloc, n1, kinds, first) {
        Some(endpoint) => {
            *c = Cimbaloty::of(endpoint);
            OK
        }
        None => NO_MEMORY,
    }
}

/// An endpoint at a modem of this dialect, which listens to the kinds of both sets.
fn make(
    alloc: Global,
    dialect: &Dialect,
    n1: N1,
    kinds: u8,
    own: u64,
    first: u64,
) -> Option<Box<Endpoint>>
    ensures made { IfSome result (λ b. b.value ≡ endpoint_by dialect.now n1.octets (kinds_of_sets kinds own) first) }
    ensures begins { IfSome result (λ b. BeginsBy (dialect_of dialect.now) n1.octets (kinds_of_sets kinds own) b.value) }
{
    let Ok(kinds) = kinds_of_sets(alloc, kinds, own) else {
        return None;
    };
    match Endpoint::with_dialect(alloc, n1.octets, dialect, kinds.as_slice(), first) {
        Ok(endpoint) => boxed(alloc, endpoint),
        Err(_) => None,
    }
}

/// The same at a modem of the dialect that C keeps, if there is one.
fn make_by(
    alloc: Global,
    d: &mut CimbalotyDialect,
    n1: N1,
    kinds: u8,
    own: u64,
    first: u64,
) -> Option<Box<Endpoint>>
    ensures made { IfSome result (λ b. Has d.old (λ r.
        b.value ≡ endpoint_by r n1.octets (kinds_of_sets kinds own) first)) }
    ensures begins { IfSome result (λ b. Has d.old (λ r.
        BeginsBy (dialect_of r) n1.octets (kinds_of_sets kinds own) b.value)) }
    ensures stays { rules_of d.new ≡ rules_of d.old }
{
    let dialect = d.take(alloc)?;
    let made = make(alloc, &dialect, n1, kinds, own, first);
    *d = CimbalotyDialect::of(dialect);
    made
}

/// Makes a driver of a modem of this dialect where there is none.
#[unsafe(no_mangle)]
pub extern "C" fn cimbaloty_new_with_dialect(
    alloc: Global,
    c: &mut Cimbaloty,
    d: &mut CimbalotyDialect,
    n1: u16,
    kinds: u8,
    own: u64,
    first: u64,
) -> u8
    ensures made { result ≡ OK → Has d.old (λ r. Holds c.new (λ e.
        e ≡ endpoint_by r n1 (kinds_of_sets kinds own) first)) }
    ensures begins { result ≡ OK → Has d.old (λ r. Holds c.new (λ e.
        BeginsBy (dialect_of r) n1 (kinds_of_sets kinds own) e)) }
    ensures has_driver { (result ≡ HAS_DRIVER) ↔ (endpoint_of c.old ≢ None) }
    ensures bad_kinds { endpoint_of c.old ≡ None → ((result ≡ BAD_KINDS) ↔ (127 < kinds)) }
    ensures bad_n1 { endpoint_of c.old ≡ None → kinds ≤ 127
        → ((result ≡ BAD_N1) ↔ IsBadN1 n1) }
    ensures no_dialect { endpoint_of c.old ≡ None → kinds ≤ 127 → 31 ≤ n1 → n1 ≤ 32767
        → ((result ≡ NO_DIALECT) ↔ (rules_of d.old ≡ None)) }
    ensures refused { result ≢ OK → endpoint_of c.new ≡ endpoint_of c.old }
    ensures stays { rules_of d.new ≡ rules_of d.old }
    ensures others { result ≢ OK → result ≢ NO_MEMORY → result ≢ BAD_N1 → result ≢ HAS_DRIVER
        → result ≢ BAD_KINDS → result ≡ NO_DIALECT }
{
    if c.is_open() {
        return HAS_DRIVER;
    }
    if kinds > 127 {
        return BAD_KINDS;
    }
    let Some(n1) = N1::new(n1) else {
        return BAD_N1;
    };
    if !d.is_there() {
        return NO_DIALECT;
    }
    match make_by(alloc, d, n1, kinds, own, first) {
        Some(endpoint) => {
            *c = Cimbaloty::of(endpoint);
            OK
        }
        None => NO_MEMORY,
    }
}

/// Ends the driver, if there is one.
#[unsafe(no_mangle)]
pub extern "C" fn cimbaloty_free(alloc: Global, c: &mut Cimbaloty)
    ensures { endpoint_of c.new ≡ None }
{
    drop(c.take(alloc));
}

/// The version of the library: 65536 times its major number, 256 times its minor, and its patch, added
/// up.
#[unsafe(no_mangle)]
pub extern "C" fn cimbaloty_version() -> u32
    ensures { result ≡ 256 }
{
    256
}
