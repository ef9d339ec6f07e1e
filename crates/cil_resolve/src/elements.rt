//! What names of rules stand for.

ghost use Rattle.std.specs.Prelude.{◌≡◌, ◌<◌, ℕ, List, Some, slice_get, length, is_some, IfOk, IsTrue};
ghost use Rattle.cil_resolve.specs.Common.{Word, Placed, IsLead, IsFirstOf, IsOf, IsNoted, IsFaultless, IsElement, HaveElements, is_set, AreNaming, HavePlaces};
ghost use Rattle.cil_specs.specs.Lookup.{Table, types, leads, references, actual_statement, actual_of as actual_led};
ghost use Rattle.cil_specs.specs.Rule.{element_at as element_led};

use crate::words::number_at;
use cil_check::{BoundPolicy, Checker};
use cil_expression::Element;
use cil_parse::StatementKind;
use std::alloc::{AllocError, Allocator};

/// The place that a reference of the statement of a place leads to.
pub fn lead_at<A: Allocator>(bound: &BoundPolicy<'_, '_, A>, place: u32, k: usize) -> Option<u32>
    requires { (policy : List Placed) × IsOf bound.now policy }
    ensures { (policy : List Placed) (s : Placed) (table : Table) (word : Word) → IsOf bound.now policy → slice_get policy place ≡ Some s → slice_get (references s.form) k ≡ Some (table, word)
        → IsLead table policy result (leads policy table s.namespace word.text) }
{
    if place as usize >= bound.len() {
        return None;
    }
    bound.seen(place as usize).lead(k)
}

/// The place of the actual type of the alias of a place.
fn actual_of<A: Allocator>(checker: &Checker<'_, '_, A>, alias: u32) -> Option<u32>
    requires { (policy : List Placed) × IsNoted checker.now policy }
    ensures { (policy : List Placed) (s : Placed) → IsNoted checker.now policy → IsFaultless policy → slice_get policy alias ≡ Some s → IsFirstOf types policy alias → IsTrue (is_some (actual_statement policy s))
        → IsLead types policy result (actual_led policy s) }
{
    let first = checker.actuals.get(alias)?;
    lead_at(&checker.bound, first, 1)
}

/// What a name that leads to the statement of a place stands for: an alias for its actual type.
fn element_at<A: Allocator>(checker: &Checker<'_, '_, A>, places: &[u32], i: u32) -> Element
    requires { (policy : List Placed) × IsNoted checker.now policy × (i < length policy) }
    ensures { (names : List (List ℕ)) (policy : List Placed) (s : Placed) → IsNoted checker.now policy → IsFaultless policy → HavePlaces names policy places.now → slice_get policy i ≡ Some s
        → IsFirstOf types policy i → IsTrue (is_set policy s) → IsElement names result (element_led policy s s.form) }
{
    match checker.bound.kind(i as usize) {
        StatementKind::TypeAttribute => Element::Attribute(number_at(places, i as usize)),
        StatementKind::TypeAlias => {
            let place = actual_of(checker, i).unwrap_or(0);
            Element::Type(number_at(places, place as usize))
        }
        _ => Element::Type(number_at(places, i as usize)),
    }
}

/// For each statement what a name that leads there stands for, where some are declared at these places.
pub fn elements<A: Allocator + Copy>(
    alloc: A,
    checker: &Checker<'_, '_, A>,
    naming: &[u32],
    places: &[u32],
) -> Result<Vec<Element, A>, AllocError>
    requires { (policy : List Placed) × IsNoted checker.now policy × AreNaming policy naming.now }
    ensures long { IfOk result (λ elements. (policy : List Placed) → IsNoted checker.now policy
        → length elements.items ≡ length policy) }
    ensures have { IfOk result (λ elements. (names : List (List ℕ)) (policy : List Placed)
        → IsNoted checker.now policy → IsFaultless policy → AreNaming policy naming.now
        → HavePlaces names policy places.now → HaveElements names policy elements.items) }
{
    let mut elements = vec![in alloc; Element::Type(0); checker.bound.len()]?;
    for k in 0..naming.len() {
        let place = naming[k];
        elements[place as usize] = element_at(checker, places, place);
    }
    Ok(elements)
}
