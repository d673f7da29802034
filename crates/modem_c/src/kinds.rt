//! Kinds of unsolicited lines, as numbers and as sets.
ghost use Rattle.std.specs.Prelude.{◌≡◌, ◌++◌, filter, IfOk, OnOk};
ghost use Rattle.modem_c.specs.Numbers.{is_in, kind_bit, kind_number, kinds_in, kinds_of_sets, own_kinds_in};

use at_text::UrcKind;
use std::alloc::{AllocError, Global};

/// The number of a kind: 1 to 7, and from 8 on that of a dialect's own.
pub(crate) fn kind_number(kind: UrcKind) -> u16
    ensures { result ≡ kind_number kind }
{
    kind.place() as u16 + 1
}

/// The bit of a kind in a set.
fn kind_bit(kind: UrcKind) -> u8
    ensures { result ≡ kind_bit kind }
{
    match kind {
        UrcKind::Ring => 1,
        UrcKind::Cring => 2,
        UrcKind::Creg => 4,
        UrcKind::Cgreg => 8,
        UrcKind::Cgev => 16,
        UrcKind::Ciev => 32,
        UrcKind::Other => 64,
        UrcKind::Own(_) => 128,
    }
}

/// Those of these kinds that are in a set.
fn chosen(alloc: Global, all: &[UrcKind], kinds: u8) -> Result<Vec<UrcKind>, AllocError>
    ensures { IfOk result (λ v. v.items ≡ filter (is_in kinds) all.now) }
{
    let mut chosen = Vec::new(alloc);
    for kind in all {
        if kinds & kind_bit(*kind) != 0 {
            chosen.push(*kind)?;
        }
    }
    Ok(chosen)
}

/// The kinds of a set.
pub(crate) fn kinds_in(alloc: Global, kinds: u8) -> Result<Vec<UrcKind>, AllocError>
    ensures { IfOk result (λ v. v.items ≡ kinds_in kinds) }
{
    chosen(alloc, &UrcKind::STANDARD, kinds)
}

/// Puts the kinds of a dialect's own that are in a set behind these.
fn add_own_kinds(kinds: &mut Vec<UrcKind>, own: u64) -> Result<(), AllocError>
    ensures { OnOk result (kinds.new.items ≡ kinds.old.items ++ own_kinds_in own) }
{
    for place in 0..64_u8 {
        if (own >> place) % 2 == 1 {
            kinds.push(UrcKind::Own(place))?;
        }
    }
    Ok(())
}

/// The kinds of a set, and the kinds of a dialect's own of another set.
pub(crate) fn kinds_of_sets(alloc: Global, kinds: u8, own: u64) -> Result<Vec<UrcKind>, AllocError>
    ensures { IfOk result (λ v. v.items ≡ kinds_of_sets kinds own) }
{
    let mut kinds = kinds_in(alloc, kinds)?;
    add_own_kinds(&mut kinds, own)?;
    Ok(kinds)
}
