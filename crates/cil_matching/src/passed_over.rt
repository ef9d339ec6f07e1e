//! The set statements of a policy that a walk passed over.

ghost use Rattle.std.specs.Prelude.{◌≡◌, ◌<◌, ℕ, length, map, position as place_of, slice_get, Some, IfOk};
ghost use Rattle.std.specs.Option.{option_and_then};
ghost use Rattle.cil_matching.specs.Common.{sets_in, same_spot, set_spot, spot_of};
ghost use Rattle.cil_matching.specs.Passed.{ArePassed};

use crate::inverse::inverse;
use crate::places::place_at;
use crate::positions::{Position, Positions};
use crate::set_walk::position;
use cil_bind::Lead;
use cil_names::Seed;
use cil_resolve::{Resolved, resolved_sets_are_apart};
use std::alloc::{AllocError, Allocator, Global};

/// Places of set statements, found by where these stand.
#[derive(Drop)]
pub struct PassedOver<'r, A: Allocator = Global> {
    places: Vec<usize, A>,
    positions: Positions<'r, A>,
}

impl<'r, A: Allocator> PassedOver<'r, A> {
    /// The place of the set statement at a position, if that was passed over. It takes no memory.
    pub fn find(&self, wanted: Position<'_>) -> Option<usize>
        ensures { result ≡ option_and_then (slice_get self.now.places.items)
            (place_of (same_spot (spot_of wanted.entry)) self.now.positions) }
    {
        let k = self.positions.find(wanted)?;
        self.places.get(k).copied()
    }
}

/// The set statements of a policy whose places were not found, by a list of those that were. Their
/// positions are hashed by a seed.
pub fn passed_over<'r, A: Allocator + Copy>(
    alloc: A,
    seed: Seed,
    resolved: &'r Resolved<A>,
    found: &[Lead],
) -> Result<PassedOver<'r, A>, AllocError>
    requires below { (i j : ℕ) → slice_get found.now i ≡ Some (Some j)
        → j < length (sets_in resolved.now) }
    requires apart { (i k j : ℕ) → slice_get found.now i ≡ Some (Some j)
        → slice_get found.now k ≡ Some (Some j) → i ≡ k }
    ensures { IfOk result (λ passed. ArePassed (map set_spot (sets_in resolved.now)) found.now
        (length (sets_in resolved.now)) passed.places.items passed.positions) }
{
    resolved_sets_are_apart(resolved);
    let back = inverse(alloc, found, resolved.sets_len())?;
    let mut places = Vec::new(alloc);
    let mut positions = Positions::new(alloc, seed);
    for j in 0..resolved.sets_len() {
        if place_at(&back, j).is_none() {
            places.push(j)?;
            positions.add(position(resolved, j))?;
        }
    }
    Ok(PassedOver { places, positions })
}
