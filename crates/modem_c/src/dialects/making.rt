//! Makes and frees dialects.
ghost use Rattle.std.specs.Prelude.{◌≡◌, ◌≢◌, ◌↔◌, None, Some};
ghost use Rattle.at_text.specs.KnownRules.{common, dialling};
ghost use Rattle.at_text.specs.Rules.{Rules, no_rules};
ghost use Rattle.modem_c.specs.DialectCalls.{rules_of};

use crate::dialects::kept::CimbalotyDialect;
use crate::numbers::{HAS_DIALECT, NO_MEMORY, OK};
use at_text::Dialect;
use std::alloc::Global;

/// Keeps a dialect where there is none.
fn keep(alloc: Global, d: &mut CimbalotyDialect, dialect: Dialect) -> u8
    ensures made { result ≡ OK → rules_of d.new ≡ Some dialect }
    ensures refused { result ≢ OK → rules_of d.new ≡ rules_of d.old }
    ensures others { result ≢ OK → result ≡ NO_MEMORY }
{
    match Box::new(alloc, dialect) {
        Ok(dialect) => {
            *d = CimbalotyDialect::of(dialect);
            OK
        }
        Err(_) => NO_MEMORY,
    }
}

/// Makes a dialect of the standard's codes alone where there is none.
#[unsafe(no_mangle)]
pub extern "C" fn cimbaloty_dialect_new(alloc: Global, d: &mut CimbalotyDialect) -> u8
    ensures made { result ≡ OK → rules_of d.new ≡ Some no_rules }
    ensures has_dialect { (result ≡ HAS_DIALECT) ↔ (rules_of d.old ≢ None) }
    ensures refused { result ≢ OK → rules_of d.new ≡ rules_of d.old }
    ensures others { result ≢ OK → result ≢ NO_MEMORY → result ≡ HAS_DIALECT }
{
    if d.is_there() {
        return HAS_DIALECT;
    }
    keep(alloc, d, Dialect::standard(alloc))
}

/// Makes a dialect of what modems commonly send where there is none.
#[unsafe(no_mangle)]
pub extern "C" fn cimbaloty_dialect_common(alloc: Global, d: &mut CimbalotyDialect) -> u8
    ensures made { result ≡ OK → rules_of d.new ≡ Some common }
    ensures has_dialect { (result ≡ HAS_DIALECT) ↔ (rules_of d.old ≢ None) }
    ensures refused { result ≢ OK → rules_of d.new ≡ rules_of d.old }
    ensures others { result ≢ OK → result ≢ NO_MEMORY → result ≡ HAS_DIALECT }
{
    if d.is_there() {
        return HAS_DIALECT;
    }
    match Dialect::common(alloc) {
        Ok(dialect) => keep(alloc, d, dialect),
        Err(_) => NO_MEMORY,
    }
}

/// Makes a dialect of what modems commonly send and of the final codes of dialling, where there is none.
#[unsafe(no_mangle)]
pub extern "C" fn cimbaloty_dialect_dialling(alloc: Global, d: &mut CimbalotyDialect) -> u8
    ensures made { result ≡ OK → rules_of d.new ≡ Some dialling }
    ensures has_dialect { (result ≡ HAS_DIALECT) ↔ (rules_of d.old ≢ None) }
    ensures refused { result ≢ OK → rules_of d.new ≡ rules_of d.old }
    ensures others { result ≢ OK → result ≢ NO_MEMORY → result ≡ HAS_DIALECT }
{
    if d.is_there() {
        return HAS_DIALECT;
    }
    match Dialect::dialling(alloc) {
        Ok(dialect) => keep(alloc, d, dialect),
        Err(_) => NO_MEMORY,
    }
}

/// Frees the dialect, if there is one.
#[unsafe(no_mangle)]
pub extern "C" fn cimbaloty_dialect_free(alloc: Global, d: &mut CimbalotyDialect)
    ensures { rules_of d.new ≡ None }
{
    drop(d.take(alloc));
}
