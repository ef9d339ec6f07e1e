//! A walk along the set statements of two policies, side by side.

ghost use Rattle.std.specs.Prelude.{◌≡◌, ◌<◌, ℕ, length, map, position as place_of, slice_get, Some, IfOk, IfSome, IsTrue};
ghost use Rattle.cil_matching.specs.Common.{IsSameSet, sets_in, numbered_in, AreNumbers, AreRight, AreSameAt, Spot, StandAlike, same_spot, set_spot, spot_of};
ghost use Rattle.cil_resolve.specs.Below.{is_set_below};
ghost use Rattle.cil_matching.specs.Compared.{AreCompared};
ghost use Rattle.cil_matching.specs.Spot.{spot_cmp};

use crate::compared::{Compared, order_of_modules};
use crate::numbers::{Numbers, is_number};
use crate::paired_sets::{numbered_at, pairs_until};
use crate::places::{lead_to, place_at, put};
use crate::positions::Position;
use crate::same_set::is_same_set;
use cil_bind::Lead;
use cil_resolve::{NumberedSet, Resolved, resolved_sets_are_apart};
use std::alloc::{AllocError, Allocator};
use std::cmp::Ordering;

/// Where the set statement at a place stands.
pub fn position<A: Allocator>(resolved: &Resolved<A>, i: usize) -> Position<'_>
    requires { i < length (sets_in resolved.now) }
    ensures { slice_get (map set_spot (sets_in resolved.now)) i ≡ Some (spot_of result) }
{
    let set = resolved.set_at(i).unwrap();
    Position {
        module: set.module,
        offset: set.at.offset,
    }
}

/// For each name of a policy the first place of its set statements, if it has any.
fn beginnings<A: Allocator + Copy>(
    alloc: A,
    resolved: &Resolved<A>,
) -> Result<Vec<Lead, A>, AllocError> {
    let mut begins = vec![in alloc; Lead::nowhere(); resolved.names_len()]?;
    for j in (0..resolved.sets_len()).rev() {
        if let Some(attribute) = resolved.set_attribute(j) {
            begins[attribute] = lead_to(Some(j))?;
        }
    }
    Ok(begins)
}

/// How the new policy's set statement at a place stands to the old one's at a place, by their modules
/// and offsets.
fn order_of<A: Allocator>(
    known: &mut Option<Compared>,
    old: &Resolved<A>,
    i: usize,
    new: &Resolved<A>,
    j: usize,
) -> Ordering
    requires i { i < length (sets_in old.now) }
    requires j { j < length (sets_in new.now) }
    requires known { IfSome known.old (AreCompared old.now new.now) }
    ensures known { IfSome known.new (AreCompared old.now new.now) }
    ensures order { (p q : Spot) → slice_get (map set_spot (sets_in old.now)) i ≡ Some p
        → slice_get (map set_spot (sets_in new.now)) j ≡ Some q
        → result ≡ spot_cmp q p }
{
    let set = numbered_at(old, i);
    let other = numbered_at(new, j);
    order_of_modules(known, old, set.module, new, other.module).then(
        other.at.offset.cmp(&set.at.offset),
    )
}

/// The place in the new policy of the set statement that stands where the old one's at a place does, or
/// where to look for those behind it. It looks from a place on, and passes over what stands before that
/// position and is of the same attribute.
#[inline(never)]
fn find_from<A: Allocator>(
    known: &mut Option<Compared>,
    numbers: &Numbers<'_>,
    old: &Resolved<A>,
    i: usize,
    new: &Resolved<A>,
    next: usize,
) -> Result<usize, usize>
    requires within { i < length (sets_in old.now) }
    requires known { IfSome known.old (AreCompared old.now new.now) }
    ensures known { IfSome known.new (AreCompared old.now new.now) }
    ensures ok { IfOk result (StandAlike old.now new.now i) }
    ensures within { IfOk result (λ j. j < length (sets_in new.now)) }
{
    for j in next..new.sets_len() {
        match order_of(known, old, i, new, j) {
            Ordering::Equal => return Ok(j),
            Ordering::Greater => return Err(j),
            Ordering::Less => {
                let attribute = numbered_at(old, i).attribute;
                let other = numbered_at(new, j).attribute;
                if !is_number(numbers, attribute, other) {
                    return Err(j);
                }
            }
        }
    }
    Err(new.sets_len())
}

/// The place in the new policy of the same set statement, if it is the place that is given, where one
/// stands at its position. Given the place of the one at its position, it finds it wherever the new
/// policy has it.
#[inline(never)]
pub fn same<A: Allocator>(
    numbers: &Numbers<'_>,
    old: &Resolved<A>,
    i: usize,
    new: &Resolved<A>,
    place: Option<usize>,
) -> Option<usize>
    requires within { i < length (sets_in old.now) }
    requires alike { IfSome place (StandAlike old.now new.now i) }
    requires numbers { AreNumbers old.now.names.items new.now.names.items numbers.now }
    ensures right { (j : ℕ) → result ≡ Some j → AreSameAt IsSameSet
        (sets_in old.now) (sets_in new.now) i j }
    ensures certain { (j : ℕ)
        → AreSameAt IsSameSet (sets_in old.now) (sets_in new.now) i j
        → ((spot : Spot) → slice_get (map set_spot (sets_in old.now)) i ≡ Some spot
        → place ≡ place_of (same_spot spot) (map set_spot (sets_in new.now)))
        → result ≡ Some j }
{
    resolved_sets_are_apart(new);
    let j = place?;
    let set = numbered_at(old, i);
    is_same_set(numbers, set, numbered_at(new, j)).then_some(j)
}

/// The first place that the new policy has of the set statements of an attribute of the old one, if it
/// has any, by a list of the first places for the new one's names.
fn beginning(numbers: &Numbers<'_>, begins: &[Lead], attribute: Option<usize>) -> Option<usize> {
    let number = numbers.number(attribute?)?;
    place_at(begins, number)
}

/// For each set statement of the old policy the place of the same one in the new one, where a walk
/// along both finds it. The statements of an attribute stand together, in the order of their positions
/// in both. Where the old policy comes to its next attribute, the walk goes on from the first statement
/// of that in the new one, if it has any. Behind one that is found, statements are gone along in pairs
/// as far as they are the same.
pub fn walk<A: Allocator + Copy>(
    alloc: A,
    numbers: &Numbers<'_>,
    old: &Resolved<A>,
    new: &Resolved<A>,
) -> Result<Vec<Lead, A>, AllocError>
    requires { AreNumbers old.now.names.items new.now.names.items numbers.now }
    ensures { IfOk result (λ places. AreRight IsSameSet (sets_in old.now)
        (sets_in new.now) (length (sets_in old.now)) places.items) }
{
    let mut places = Vec::with_capacity(alloc, old.sets_len())?;
    let begins = beginnings(alloc, new)?;
    let mut known = None;
    let mut attribute = None;
    let mut next = 0;
    let mut until = 0;
    for i in 0..old.sets_len() {
        if i < until {
            put(&mut places, Some(next))?;
            next += 1;
        } else {
            let current = old.set_attribute(i);
            if current != attribute {
                attribute = current;
                next = beginning(numbers, &begins, attribute).unwrap_or(next);
            }
            let found = find_from(&mut known, numbers, old, i, new, next);
            put(&mut places, same(numbers, old, i, new, found.ok()))?;
            match found {
                Ok(j) => {
                    until = pairs_until(numbers, old, i, new, j);
                    attribute = old.set_attribute(until - 1);
                    next = j + 1;
                }
                Err(j) => next = j,
            }
        }
    }
    Ok(places)
}
