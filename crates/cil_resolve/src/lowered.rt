//! What a policy without faults resolves to.

ghost use Rattle.std.specs.Prelude.{◌≡◌, List, map, slice_index_or, IfOk};
ghost use Rattle.cil_resolve.specs.Common.{Placed, meaning_of, IsNoted, IsFaultless, ArePartsOf, modules_of, dropped_with, meaning_in};

use crate::elements::elements;
use crate::lowering::{Lowering, Parts};
use crate::naming::Naming;
use crate::numbered::DroppedOptional;
use crate::numbering::Numbering;
use crate::resolved::Resolved;
use crate::set_order::OrderedSets;
use crate::text::Text;
use cil_bind::Joined;
use cil_check::Checker;
use std::alloc::{AllocError, Allocator};

/// Copies of the names of modules, in their order.
fn module_names<A: Allocator + Copy>(
    alloc: A,
    joined: &Joined<'_, A>,
) -> Result<Vec<Text<A>, A>, AllocError>
    ensures { IfOk result (λ names. names.items ≡ modules_of joined.now) }
{
    let mut names = Vec::with_capacity(alloc, joined.modules.len())?;
    for i in 0..joined.modules.len() {
        names.push(Text::of(alloc, joined.modules[i].name)?)?;
    }
    Ok(names)
}

/// The names of a policy without faults, and by their numbers what it declares and says.
fn numbered_parts<A: Allocator + Copy>(
    alloc: A,
    checker: &Checker<'_, '_, A>,
) -> Result<(Numbering<A>, Parts<A>), AllocError>
    requires { (policy : List Placed) × IsNoted checker.now policy × IsFaultless policy }
    ensures { IfOk result (λ made. (policy : List Placed) → IsNoted checker.now policy → IsFaultless policy
        → ArePartsOf (modules_of checker.now.bound.joined.now) made.0.names.items policy policy made.1) }
{
    let naming = Naming::of(alloc, &checker.bound)?;
    let numbering = Numbering::of(alloc, &checker.bound, &naming.places)?;
    let elements = elements(alloc, checker, &naming.places, &numbering.places)?;
    let lowering = Lowering {
        alloc,
        checker,
        numbering: &numbering,
        elements: &elements,
    };
    let parts = lowering.parts(&naming)?;
    Ok((numbering, parts))
}

/// A policy without faults by full names, with the optionals that drop.
pub fn lowered<A: Allocator + Copy>(
    alloc: A,
    checker: &Checker<'_, '_, A>,
    dropped: Vec<DroppedOptional<A>, A>,
) -> Result<Resolved<A>, AllocError>
    requires { (policy : List Placed) × IsNoted checker.now policy × IsFaultless policy }
    ensures { IfOk result (λ r. (policy : List Placed) → IsNoted checker.now policy → IsFaultless policy
        → meaning_in r ≡ meaning_of policy (map (dropped_with (modules_of checker.now.bound.joined.now)) dropped.items)) }
{
    let (numbering, parts) = numbered_parts(alloc, checker)?;
    let sets = OrderedSets::of(alloc, numbering.names.len(), parts.sets)?;
    Ok(Resolved {
        modules: module_names(alloc, checker.bound.joined)?,
        names: numbering.names,
        types: parts.types,
        attributes: parts.attributes,
        classes: parts.classes,
        permission_sets: parts.permission_sets,
        sets,
        rules: parts.rules,
        dropped,
    })
}
