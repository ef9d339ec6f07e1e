//! Lists of places in another list, of 4 bytes each.

ghost use Rattle.std.specs.Prelude.{◌≡◌, ◌↔◌, ◌++◌, ◌∷◌, [], ℕ, slice_get, Some, IfOk, OnOk};

use cil_bind::Lead;
use cil_names::in_32_bits;
use std::alloc::{AllocError, Allocator};

/// A lead to a place, or nowhere. A place of 4294967295 or more is answered as out of memory.
#[inline(always)]
pub fn lead_to(place: Option<usize>) -> Result<Lead, AllocError>
    ensures { IfOk result (λ lead. lead ≡ place) }
{
    match place {
        Some(place) => Lead::of(Some(in_32_bits(place)?)),
        None => Ok(Lead::nowhere()),
    }
}

/// The place that a lead leads to, if it leads anywhere.
#[inline(always)]
pub fn place_of(lead: Lead) -> Option<usize>
    ensures { result ≡ lead }
{
    match lead.place() {
        Some(place) => Some(place as usize),
        None => None,
    }
}

/// Puts a place, or none, last.
#[inline(always)]
pub fn put<A: Allocator>(places: &mut Vec<Lead, A>, place: Option<usize>) -> Result<(), AllocError>
    ensures { OnOk result (places.new.items ≡ places.old.items ++ place ∷ []) }
{
    places.push(lead_to(place)?)?;
    Ok(())
}

/// The place that a list has at a number.
pub fn place_at(places: &[Lead], i: usize) -> Option<usize>
    ensures { (j : ℕ) → (result ≡ Some j) ↔ (slice_get places.now i ≡ Some (Some j)) }
{
    match places.get(i) {
        Some(lead) => place_of(*lead),
        None => None,
    }
}
