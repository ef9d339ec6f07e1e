//! What a rule reaches.

ghost use Rattle.std.specs.Prelude.{◌≡◌, ◌≤◌, ◌-◌, ◌^◌, ℕ, IsTrue, false, length, IfOk};
ghost use Rattle.cil_resolve.specs.Below.{is_element_below, is_rule_below, is_target_below};
ghost use Rattle.cil_rule_shifts.specs.Reach.{has_source, has_type, takes, AreShort, IsShort};
ghost use Rattle.cil_rule_reach.specs.Reaches.{aims_by, has_by, members_of};

use crate::lines::members_line;
use crate::permits::symbol_of;
use crate::symbol_members::SymbolMembers;
use cil_resolve::{Element, NumberedRule, ResolvedTarget};
use cil_rule_shifts::{Reach, Targets, Types};
use cil_symbols::Numbering;
use std::alloc::{AllocError, Allocator};

/// The types that an element stands for.
fn types_of<A: Allocator + Copy>(
    alloc: A,
    members: &SymbolMembers<'_, A>,
    numbering: &Numbering<A>,
    element: Element,
) -> Result<Types<A>, AllocError>
    requires below { IsTrue (is_element_below (length numbering.now.symbols) element) }
    requires symbols { numbering.now.count ≤ members.now.symbols }
    requires known { (a t : ℕ) → members.now.symbols ≤ t → members_of members.now a t ≡ 0 }
    ensures types { IfOk result (λ types. (t : ℕ) → has_type types t ≡ has_by (members_of members.now) numbering.now.symbols element t) }
    ensures short { IfOk result (λ types. (t : ℕ) → 2 ^ 64 - 1 ≤ t → has_type types t ≡ false) }
{
    members.symbols_len();
    match element {
        Element::Type(ty) => Ok(Types::One(symbol_of(numbering, ty as usize))),
        Element::Attribute(attribute) => {
            let row = symbol_of(numbering, attribute as usize);
            let line = members_line(alloc, members, row)?;
            Ok(Types::Many(line))
        }
    }
}

/// The targets of a rule.
fn targets_of<A: Allocator + Copy>(
    alloc: A,
    members: &SymbolMembers<'_, A>,
    numbering: &Numbering<A>,
    target: ResolvedTarget,
) -> Result<Targets<A>, AllocError>
    requires below { IsTrue (is_target_below (length numbering.now.symbols) target) }
    requires symbols { numbering.now.count ≤ members.now.symbols }
    requires known { (a t : ℕ) → members.now.symbols ≤ t → members_of members.now a t ≡ 0 }
    ensures targets { IfOk result (λ targets. (s t : ℕ) → takes targets s t ≡ aims_by (members_of members.now) numbering.now.symbols target s t) }
    ensures short { IfOk result AreShort }
{
    match target {
        ResolvedTarget::Itself => Ok(Targets::Itself),
        ResolvedTarget::Element(element) => {
            let types = types_of(alloc, members, numbering, element)?;
            Ok(Targets::These(types))
        }
    }
}

/// What a rule of a policy reaches, by the policy's members and the symbols of its names.
pub fn rule_reach<A: Allocator + Copy>(
    alloc: A,
    members: &SymbolMembers<'_, A>,
    numbering: &Numbering<A>,
    rule: &NumberedRule<A>,
) -> Result<Reach<A>, AllocError>
    requires below { IsTrue (is_rule_below (length numbering.now.symbols) rule.now) }
    requires symbols { numbering.now.count ≤ members.now.symbols }
    requires known { (a t : ℕ) → members.now.symbols ≤ t → members_of members.now a t ≡ 0 }
    ensures short { IfOk result IsShort }
    ensures sources { IfOk result (λ reach. (s : ℕ) → has_source reach s ≡ has_by (members_of members.now) numbering.now.symbols rule.now.source s) }
    ensures targets { IfOk result (λ reach. (s t : ℕ) → takes reach.targets s t ≡ aims_by (members_of members.now) numbering.now.symbols rule.now.target s t) }
{
    let sources = types_of(alloc, members, numbering, rule.source)?;
    let targets = targets_of(alloc, members, numbering, rule.target)?;
    Ok(Reach { sources, targets })
}
