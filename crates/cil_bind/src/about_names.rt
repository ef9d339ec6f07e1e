//! The statements that are about names: all but rules and set statements.

ghost use Rattle.std.specs.Prelude.{◌≡◌, ◌<◌, ◌^◌, ◌++◌, ◌∷◌, [], length, if◌then◌else◌, IfOk, OnOk};
ghost use Rattle.cil_bind.specs.AboutNames.{is_about_names as is_about_names_kind, name_places as places_of_kinds};

use cil_parse::StatementKind;
use std::alloc::{AllocError, Allocator};

/// Whether statements of a kind are about names. All are but rules and set statements, of which a
/// policy has most.
fn is_about_names(kind: StatementKind) -> bool
    ensures { result ≡ is_about_names_kind kind }
{
    !matches!(
        kind,
        StatementKind::TypeAttributeSet
            | StatementKind::Rule(_)
            | StatementKind::RuleToSelf(_)
            | StatementKind::RuleOfSet(_)
            | StatementKind::RuleToSelfOfSet(_)
    )
}

/// Puts a place behind others if the statement there, by its kind, is about names.
#[inline(always)]
fn add_place<A: Allocator>(
    places: &mut Vec<u32, A>,
    kind: StatementKind,
    place: u32,
) -> Result<(), AllocError>
    ensures { OnOk result (places.new.items
        ≡ places.old.items ++ (if is_about_names_kind kind then place ∷ [] else [])) }
{
    if is_about_names(kind) {
        places.push(place)?;
    }
    Ok(())
}

/// The places of the statements about names, by the kinds of all statements.
pub fn name_places<A: Allocator + Copy>(
    alloc: A,
    kinds: &[StatementKind],
) -> Result<Vec<u32, A>, AllocError>
    requires { length kinds.now < 2 ^ 32 }
    ensures { IfOk result (λ places. places.items ≡ places_of_kinds 0 kinds.now) }
{
    let mut places = Vec::new(alloc);
    for i in 0..kinds.len() {
        add_place(&mut places, kinds[i], i as u32)?;
    }
    Ok(places)
}
