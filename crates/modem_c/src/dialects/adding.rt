//! Adds rules to a dialect, and looks up its kinds.
ghost use Rattle.std.specs.Prelude.{◌≡◌, ◌≢◌, ◌<◌, ◌≤◌, ◌↔◌, ◌⊎◌, None, Some, OnOk, IfErr, IfSome};
ghost use Rattle.at_text.specs.Rules.{FinalRule, Rules, UrcRule, kind_with_name};
ghost use Rattle.modem_c.specs.DialectCalls.{Adds, Changes, Has, RefusesRule, number_or_0, rules_of};
ghost use Rattle.modem_c.specs.Numbers.{dialect_refusal, form_number};

use crate::dialects::kept::CimbalotyDialect;
use crate::kinds::kind_number;
use crate::numbers::{BAD_FORM, DIALECT, NO_DIALECT, NO_MEMORY, OK};
use at_text::{Dialect, DialectError, Form};
use std::alloc::Global;

/// The form of a number.
fn form_of(number: u8) -> Option<Form>
    ensures form { IfSome result (λ form. form_number form ≡ number) }
    ensures none { (result ≡ None) ↔ ((number < 1) ⊎ (5 < number)) }
{
    match number {
        1 => Some(Form::Line),
        2 => Some(Form::Prefix),
        3 => Some(Form::Quoted),
        4 => Some(Form::Report),
        5 => Some(Form::OpenReport),
        _ => None,
    }
}

/// What is answered to a rule.
fn answer(added: Result<(), DialectError>) -> u8
    ensures ok { OnOk added (result ≡ OK) }
    ensures refused { IfErr added (λ why. result ≡ dialect_refusal why) }
{
    match added {
        Ok(()) => OK,
        Err(DialectError::NoMemory) => NO_MEMORY,
        Err(why) => DIALECT + why.number(),
    }
}

/// Adds a final rule.
fn add_final(dialect: &mut Dialect, form: Form, text: &[u8]) -> u8
    ensures added { result ≡ OK
        → Adds (λ f. FinalRule f text.now) (form_number form) dialect.old dialect.new }
    ensures refused { result ≢ OK
        → RefusesRule (λ f. FinalRule f text.now) (form_number form) result dialect.old }
    ensures stays { result ≢ OK → dialect.new ≡ dialect.old }
{
    answer(dialect.add_final(form, text))
}

/// Adds a rule of unsolicited lines.
fn add_unsolicited(dialect: &mut Dialect, form: Form, text: &[u8], name: &[u8]) -> u8
    ensures added { result ≡ OK
        → Adds (λ f. UrcRule f text.now name.now) (form_number form) dialect.old dialect.new }
    ensures refused { result ≢ OK
        → RefusesRule (λ f. UrcRule f text.now name.now) (form_number form) result dialect.old }
    ensures stays { result ≢ OK → dialect.new ≡ dialect.old }
{
    answer(dialect.add_unsolicited(form, text, name))
}

/// Adds a rule of lines that end an answer, behind those that there are.
#[unsafe(no_mangle)]
pub extern "C" fn cimbaloty_dialect_add_final_at(
    alloc: Global,
    d: &mut CimbalotyDialect,
    form: u8,
    text: &[u8],
) -> u8
    ensures added { result ≡ OK → Changes d.old d.new (Adds (λ f. FinalRule f text.now) form) }
    ensures refused { (result ≡ NO_MEMORY) ⊎ (DIALECT ≤ result)
        → Has d.old (RefusesRule (λ f. FinalRule f text.now) form result) }
    ensures no_dialect { (result ≡ NO_DIALECT) ↔ (rules_of d.old ≡ None) }
    ensures bad_form { rules_of d.old ≢ None → ((result ≡ BAD_FORM) ↔ ((form < 1) ⊎ (5 < form))) }
    ensures stays { result ≢ OK → rules_of d.new ≡ rules_of d.old }
    ensures others { result < DIALECT → result ≢ OK → result ≢ NO_MEMORY → result ≢ NO_DIALECT
        → result ≡ BAD_FORM }
{
    if !d.is_there() {
        return NO_DIALECT;
    }
    let Some(form) = form_of(form) else {
        return BAD_FORM;
    };
    let Some(mut dialect) = d.take(alloc) else {
        return NO_DIALECT;
    };
    let added = add_final(&mut dialect, form, text);
    *d = CimbalotyDialect::of(dialect);
    added
}

/// Adds a rule of unsolicited lines, behind those that there are.
#[unsafe(no_mangle)]
pub extern "C" fn cimbaloty_dialect_add_unsolicited_at(
    alloc: Global,
    d: &mut CimbalotyDialect,
    form: u8,
    text: &[u8],
    name: &[u8],
) -> u8
    ensures added { result ≡ OK → Changes d.old d.new (Adds (λ f. UrcRule f text.now name.now) form) }
    ensures refused { (result ≡ NO_MEMORY) ⊎ (DIALECT ≤ result)
        → Has d.old (RefusesRule (λ f. UrcRule f text.now name.now) form result) }
    ensures no_dialect { (result ≡ NO_DIALECT) ↔ (rules_of d.old ≡ None) }
    ensures bad_form { rules_of d.old ≢ None → ((result ≡ BAD_FORM) ↔ ((form < 1) ⊎ (5 < form))) }
    ensures stays { result ≢ OK → rules_of d.new ≡ rules_of d.old }
    ensures others { result < DIALECT → result ≢ OK → result ≢ NO_MEMORY → result ≢ NO_DIALECT
        → result ≡ BAD_FORM }
{
    if !d.is_there() {
        return NO_DIALECT;
    }
    let Some(form) = form_of(form) else {
        return BAD_FORM;
    };
    let Some(mut dialect) = d.take(alloc) else {
        return NO_DIALECT;
    };
    let added = add_unsolicited(&mut dialect, form, text, name);
    *d = CimbalotyDialect::of(dialect);
    added
}

/// The number of the kind of this name in a dialect.
fn kind_of(dialect: &Dialect, name: &[u8]) -> u16
    ensures { result ≡ number_or_0 (kind_with_name dialect.now name.now) }
{
    match dialect.kind_named(name) {
        Some(kind) => kind_number(kind),
        None => 0,
    }
}

/// The number of the kind of this name; 0 where there is none, or no dialect.
#[unsafe(no_mangle)]
pub extern "C" fn cimbaloty_dialect_kind_at(
    alloc: Global,
    d: &mut CimbalotyDialect,
    name: &[u8],
) -> u16
    ensures value { (r : Rules) → rules_of d.old ≡ Some r
        → result ≡ number_or_0 (kind_with_name r name.now) }
    ensures none { rules_of d.old ≡ None → result ≡ 0 }
    ensures stays { rules_of d.new ≡ rules_of d.old }
{
    let Some(dialect) = d.take(alloc) else {
        return 0;
    };
    let kind = kind_of(&dialect, name);
    *d = CimbalotyDialect::of(dialect);
    kind
}
