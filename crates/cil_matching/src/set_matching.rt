//! The set statements of one policy that stand in another one.

ghost use Rattle.std.specs.Prelude.{◌≡◌, ◌↔◌, ◌<◌, ℕ, length, slice_get, Some, IfOk};
ghost use Rattle.cil_matching.specs.Common.{IsSameSet, sets_in, AreMatched, ArePlaces};

use crate::inverse::inverse;
use crate::name_numbers::name_numbers;
use crate::numbers::Numbers;
use crate::passed_over::passed_over;
use crate::places::{lead_to, place_at, place_of};
use crate::set_walk::{position, same, walk};
use cil_bind::Lead;
use cil_names::Seed;
use cil_resolve::{Resolved, resolved_sets_are_apart};
use std::alloc::{AllocError, Allocator, Global};
use std::marker::Model;

/// For each set statement of one policy the place of the same one in another policy, if that has it, and back. Contracts see the
/// two lists of places.
#[derive(Drop)]
pub struct SetMatching<A: Allocator = Global> {
    ahead: Vec<Lead, A>,
    back: Vec<Lead, A>,
}

impl<A: Allocator> Model for SetMatching<A> {
    ghost use Rattle.cil_matching.specs.Matching.{Matched};

    ghost Value = { Matched };

    ghost view = { λ m. record { ahead = m.ahead.items; back = m.back.items } };
}

/// How many of the first numbers have a place.
fn first_open(places: &[Lead]) -> usize
    ensures { (i : ℕ) → i < result → (k : ℕ) × (slice_get places.now i ≡ Some (Some k)) }
{
    for (i, place) in places.iter().enumerate() {
        if place_of(*place).is_none() {
            return i;
        }
    }
    places.len()
}

/// For each set statement of the old policy the place of the same one in the new one, if that has it.
/// Those that a walk along both doesn't find are looked up among what it passed over. Mostly there are
/// none, and nothing is looked up.
fn set_places<A: Allocator + Copy>(
    alloc: A,
    seed: Seed,
    old: &Resolved<A>,
    new: &Resolved<A>,
) -> Result<Vec<Lead, A>, AllocError>
    ensures { IfOk result (λ places. ArePlaces IsSameSet (sets_in old.now) (sets_in new.now)
        (length (sets_in old.now)) places.items) }
{
    resolved_sets_are_apart(old);
    resolved_sets_are_apart(new);
    let list = name_numbers(alloc, old, new)?;
    let numbers = Numbers::of(&list);
    let mut places = walk(alloc, &numbers, old, new)?;
    let open = first_open(&places);
    if open == places.len() {
        return Ok(places);
    }
    let passed = passed_over(alloc, seed, new, &places)?;
    for i in open..old.sets_len() {
        if place_of(places[i]).is_none() {
            places[i] = lead_to(same(&numbers, old, i, new, passed.find(position(old, i))))?;
        }
    }
    Ok(places)
}

impl<A: Allocator + Copy> SetMatching<A> {
    /// The set statements of an old policy that stand in a new one: those of the same module, offset and content. Its time goes
    /// with the size of the two. The table of what a walk along them passes over is hashed by a seed.
    pub fn of(
        alloc: A,
        seed: Seed,
        old: &Resolved<A>,
        new: &Resolved<A>,
    ) -> Result<Self, AllocError>
        ensures { IfOk result (AreMatched IsSameSet (sets_in old.now) (sets_in new.now)) }
    {
        resolved_sets_are_apart(old);
        let ahead = set_places(alloc, seed, old, new)?;
        let back = inverse(alloc, &ahead, new.sets_len())?;
        Ok(SetMatching { ahead, back })
    }
}

impl<A: Allocator> SetMatching<A> {
    /// The place in the new policy of the old one's set statement at a place, if the new policy has the same.
    pub fn new_place(&self, i: usize) -> Option<usize>
        ensures { (j : ℕ) → (result ≡ Some j) ↔ (slice_get self.now.ahead i ≡ Some (Some j)) }
    {
        place_at(&self.ahead, i)
    }

    /// The place in the old policy of the new one's set statement at a place, if the old policy has the same.
    pub fn old_place(&self, j: usize) -> Option<usize>
        ensures { (i : ℕ) → (result ≡ Some i) ↔ (slice_get self.now.back j ≡ Some (Some i)) }
    {
        place_at(&self.back, j)
    }
}
