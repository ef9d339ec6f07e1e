//! The optionals that drop.

ghost use Rattle.std.specs.Prelude.{◌≡◌, ◌<◌, ◌++◌, ◌∷◌, ℕ, List, [], Some, map, length, slice_get, IfOk, OnOk, IsTrue};
ghost use Rattle.cil_specs.specs.Rule.{Declared};
ghost use Rattle.cil_resolve.specs.Common.{Placed, Optionals, dropped_of, scopes, declared_as, is_optional, named, IsBoundTo, space_text, modules_of, dropped_with};
ghost use Rattle.cil_resolve.specs.Dropped.{mark_of, dropped_unless, HaveMarks, AreFound};

use crate::full_names::{add_full_name, space_names};
use crate::numbered::DroppedOptional;
use crate::text::{Text, next_text};
use cil_bind::{Joined, Policy, Row, is_optional as is_optional_kind};
use cil_shared::SharedPart;
use cil_text::Place;
use std::alloc::{AllocError, Allocator};

/// An optional that drops: the place of its module's name, the place of its statement, and how many bytes its full name has.
#[derive(Clone, Copy)]
struct FoundOptional {
    module: u32,
    at: Place,
    name_length: usize,
}

/// Optionals that drop, and the bytes of their full names, one behind the other.
#[derive(Drop)]
struct Found<A: Allocator> {
    optionals: Vec<FoundOptional, A>,
    names: Vec<u8, A>,
}

/// Puts in the optional of a row with its full name; the names of the namespaces are given.
fn add_optional<A: Allocator + Copy>(
    found: &mut Found<A>,
    joined: &Joined<'_, A>,
    policy: &Policy<'_, A>,
    spaces: &[Text<A>],
    row: &Row,
) -> Result<(), AllocError>
    requires is { (statements : List Placed) × ((i : ℕ) × (s : Placed) × IsBoundTo policy.now joined.now.modules.items statements × (slice_get policy.now.rows.items i ≡ Some row.now)
        × (slice_get statements i ≡ Some s) × IsTrue (is_optional s.form)) }
    requires spaces { spaces.now ≡ map (λ space. space_text (named policy.now.names space)) policy.now.lookup.namespaces }
    ensures { OnOk result ((statements : List Placed) (i : ℕ) (s : Placed) (before : List Declared) → IsBoundTo policy.now joined.now.modules.items statements → slice_get policy.now.rows.items i ≡ Some row.now
        → slice_get statements i ≡ Some s → IsTrue (is_optional s.form) → AreFound (modules_of joined.now) found.old before → AreFound (modules_of joined.now) found.new (before ++ declared_as scopes s ∷ [])) }
{
    let module = joined.modules[row.module as usize].module;
    let view = module.statement(row.index as usize);
    let Some((_, id)) = view.declared() else {
        unreachable!("an optional declares its name");
    };
    let start = found.names.len();
    let name = module.text(id.text as usize);
    add_full_name(&mut found.names, spaces, row.namespace, name)?;
    found.optionals.push(FoundOptional {
        module: row.module,
        at: view.at,
        name_length: found.names.len() - start,
    })?;
    Ok(())
}

/// Puts in the optional of a place, if it drops.
fn add_dropped<A: Allocator + Copy>(
    found: &mut Found<A>,
    joined: &Joined<'_, A>,
    policy: &Policy<'_, A>,
    spaces: &[Text<A>],
    kept: &[bool],
    i: usize,
) -> Result<(), AllocError>
    requires is { (statements : List Placed) × IsBoundTo policy.now joined.now.modules.items statements }
    requires within { i < length policy.now.rows.items }
    requires spaces { spaces.now ≡ map (λ space. space_text (named policy.now.names space)) policy.now.lookup.namespaces }
    ensures { OnOk result ((statements : List Placed) (s : Placed) (before : List Declared) → IsBoundTo policy.now joined.now.modules.items statements → slice_get statements i ≡ Some s
        → AreFound (modules_of joined.now) found.old before → AreFound (modules_of joined.now) found.new (before ++ dropped_unless (mark_of kept.now i) s)) }
{
    if !is_optional_kind(policy.kinds[i]) {
        return Ok(());
    }
    let row = &policy.rows[i];
    if row.is_optional && !is_marked(kept, i) {
        add_optional(found, joined, policy, spaces, row)?;
    }
    Ok(())
}

/// The optionals that are found. Their names own their bytes together; names of 2^32 bytes or more are answered as out of memory.
fn with_names<A: Allocator + Copy>(
    alloc: A,
    found: Found<A>,
) -> Result<Vec<DroppedOptional<A>, A>, AllocError>
    requires { (modules : List (List ℕ)) × (declared : List Declared) × AreFound modules found declared }
    ensures { IfOk result (λ dropped. (modules : List (List ℕ)) (declared : List Declared) → AreFound modules found declared
        → map (dropped_with modules) dropped.items ≡ declared) }
{
    let Found { optionals, names } = found;
    let mut rest = SharedPart::of(alloc, names)?;
    let mut dropped = Vec::with_capacity(alloc, optionals.len())?;
    for optional in &optionals {
        let name = next_text(&mut rest, optional.name_length)?;
        dropped.push(DroppedOptional {
            module: optional.module,
            at: optional.at,
            name,
        })?;
    }
    Ok(dropped)
}

/// The optionals of a policy that aren't marked as kept, in the order of their statements. The mark of an optional is that of its number, its
/// place and 1 more.
pub fn dropped_optionals<A: Allocator + Copy>(
    alloc: A,
    joined: &Joined<'_, A>,
    policy: &Policy<'_, A>,
    kept: &[bool],
) -> Result<Vec<DroppedOptional<A>, A>, AllocError>
    requires { (statements : List Placed) × IsBoundTo policy.now joined.now.modules.items statements }
    ensures { IfOk result (λ dropped. (statements : List Placed) (set : Optionals) → IsBoundTo policy.now joined.now.modules.items statements → HaveMarks set kept.now statements
        → map (dropped_with (modules_of joined.now)) dropped.items ≡ dropped_of set statements) }
{
    let spaces = space_names(alloc, policy)?;
    let mut found = Found {
        optionals: Vec::new(alloc),
        names: Vec::new(alloc),
    };
    for i in 0..policy.rows.len() {
        add_dropped(&mut found, joined, policy, &spaces, kept, i)?;
    }
    with_names(alloc, found)
}

/// Whether the optional of a place is kept.
fn is_marked(kept: &[bool], i: usize) -> bool
    ensures { result ≡ mark_of kept.now i }
{
    kept.get(i.saturating_add(1)).copied().unwrap_or(false)
}
