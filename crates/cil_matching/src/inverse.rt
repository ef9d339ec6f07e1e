//! Places the other way round.

ghost use Rattle.std.specs.Prelude.{◌≡◌, ◌↔◌, ◌<◌, ℕ, length, slice_get, Some, IfOk, OnOk};
ghost use Rattle.cil_matching.specs.Inverse.{noted};

use crate::places::{lead_to, place_of};
use cil_bind::Lead;
use std::alloc::{AllocError, Allocator};

/// Puts a number at a place, if there is one.
fn note<A: Allocator>(
    back: &mut Vec<Lead, A>,
    place: Option<usize>,
    i: usize,
) -> Result<(), AllocError>
    requires { (j : ℕ) → place ≡ Some j → j < length back.old.items }
    ensures { OnOk result (back.new.items ≡ noted back.old.items place i) }
{
    if let Some(j) = place {
        back[j] = lead_to(Some(i))?;
    }
    Ok(())
}

/// For each of so many places where it stands in a list.
pub fn inverse<A: Allocator + Copy>(
    alloc: A,
    places: &[Lead],
    count: usize,
) -> Result<Vec<Lead, A>, AllocError>
    requires below { (i j : ℕ) → slice_get places.now i ≡ Some (Some j) → j < count }
    requires apart { (i k j : ℕ) → slice_get places.now i ≡ Some (Some j) → slice_get places.now k ≡ Some (Some j) → i ≡ k }
    ensures { IfOk result (λ back. (i j : ℕ) → (slice_get back.items j ≡ Some (Some i)) ↔ (slice_get places.now i ≡ Some (Some j))) }
{
    let mut back = vec![in alloc; Lead::nowhere(); count]?;
    for (i, place) in places.iter().enumerate() {
        note(&mut back, place_of(*place), i)?;
    }
    Ok(back)
}
