//! The allow rules of a policy by the classes that they give permissions of.

ghost use Rattle.std.specs.Prelude.{◌≡◌, ◌==◌, ◌+◌, ◌++◌, ◌∷◌, ◌<◌, ℕ, IsTrue, List, Option, Some, length, slice_get, IfOk, OnOk, if◌then◌else◌};
ghost use Rattle.cil_resolve.specs.Below.{is_rule_below};
ghost use Rattle.cil_resolve.specs.declared.numbered.NumberedRule.{NumberedRule};
ghost use Rattle.cil_resolve.specs.declared.set_permissions.ClassPermission.{ClassPermission};
ghost use Rattle.cil_violations.specs.Common.{AreBelow, AreChains, AreInOrder, AreOrdered, DoAgree, given_at, gives_class, is_kind, IsChain, IsIndexFrom, IsIndexOf};

use crate::permissions::given_at;
use cil_parse::Lists;
use cil_resolve::{ClassPermission, NumberedRule, Resolved, ResolvedPermissions};
use cil_text::RuleKind;
use std::alloc::{AllocError, Allocator, Global};

/// A rule of a chain: its place, and the link of the next one.
#[derive(Clone, Copy)]
pub struct Link {
    pub rule: usize,
    pub next: Option<usize>,
}

/// The places of the allow rules, in chains in rising order. Each class, by the number of its name, has a chain of the rules that give a
/// permission of it, and so has each permission set of its own rules. All rules of a set give the same, so in the chains of classes the last
/// of them alone stands, for all.
#[derive(Drop)]
pub struct ClassIndex<A: Allocator = Global> {
    pub first: Vec<Option<usize>, A>,
    pub of_set: Vec<Option<usize>, A>,
    pub links: Vec<Link, A>,
}

/// Puts in a rule for a number, before those that are in.
fn put_link<A: Allocator>(
    first: &mut Vec<Option<usize>, A>,
    links: &mut Vec<Link, A>,
    place: usize,
    number: usize,
) -> Result<(), AllocError>
    requires { number < length first.old.items }
    ensures chains { OnOk result ((f : ℕ → List ℕ) → AreChains f first.old.items links.old.items
        → AreChains (λ n. if number == n then place ∷ f n else f n) first.new.items links.new.items) }
    ensures others { OnOk result ((f : ℕ → List ℕ) (others : List (Option ℕ)) → AreChains f others links.old.items
        → AreChains f others links.new.items) }
    ensures len { length first.new.items ≡ length first.old.items }
{
    let link = links.len();
    let next = first[number];
    links.push(Link { rule: place, next })?;
    first[number] = Some(link);
    Ok(())
}

impl<A: Allocator> ClassIndex<A> {
    /// Puts in a rule that gives these permissions for each of their classes, before those that are in.
    fn put_head(&mut self, place: usize, permissions: &[ClassPermission]) -> Result<(), AllocError>
        requires rising { AreInOrder permissions.now }
        requires below { AreBelow (length self.old.first.items) permissions.now }
        ensures classes { OnOk result ((f : ℕ → List ℕ) → AreChains f self.old.first.items self.old.links.items
            → AreChains (λ c. if gives_class permissions.now c then place ∷ f c else f c) self.new.first.items self.new.links.items) }
        ensures sets { OnOk result ((f : ℕ → List ℕ) (others : List (Option ℕ)) → AreChains f others self.old.links.items
            → AreChains f others self.new.links.items) }
        ensures same { self.new.of_set.items ≡ self.old.of_set.items }
        ensures len { length self.new.first.items ≡ length self.old.first.items }
    {
        let mut last = None;
        for permission in permissions {
            if last != Some(permission.class) {
                put_link(&mut self.first, &mut self.links, place, permission.class)?;
                last = Some(permission.class);
            }
        }
        Ok(())
    }

    /// Puts in an allow rule, which gives these permissions, before those that are in.
    fn put(
        &mut self,
        place: usize,
        rule: &NumberedRule<A>,
        permissions: &[ClassPermission],
    ) -> Result<(), AllocError>
        requires rising { AreInOrder permissions.now }
        requires below { AreBelow (length self.old.first.items) permissions.now }
        requires rule { IsTrue (is_rule_below (length self.old.of_set.items) rule.now) }
        requires allows { IsTrue (is_kind 0 rule.now) }
        ensures index { OnOk result ((rules : List (NumberedRule A)) (lists : List (List ClassPermission)) → slice_get rules place ≡ Some rule.now
            → given_at rules lists place ≡ permissions.now → DoAgree rules lists
            → IsIndexFrom rules lists (place + 1) self.old → IsIndexFrom rules lists place self.new) }
        ensures classes { length self.new.first.items ≡ length self.old.first.items }
        ensures sets { length self.new.of_set.items ≡ length self.old.of_set.items }
    {
        match &rule.permissions {
            ResolvedPermissions::OfClass(_) => self.put_head(place, permissions),
            ResolvedPermissions::OfSet(set) => {
                if self.of_set[set.set].is_none() {
                    self.put_head(place, permissions)?;
                }
                put_link(&mut self.of_set, &mut self.links, place, set.set)
            }
        }
    }

    /// Appends the rules of a chain.
    pub fn push_chain(
        &self,
        list: &mut Vec<usize, A>,
        first: Option<usize>,
    ) -> Result<(), AllocError>
        requires { (ns : List ℕ) × IsChain self.now.links.items ns first }
        ensures { OnOk result ((ns : List ℕ) → IsChain self.now.links.items ns first → list.new.items ≡ list.old.items ++ ns) }
    {
        let mut next = first;
        while let Some(at) = next {
            let link = self.links[at];
            list.push(link.rule)?;
            next = link.next;
        }
        Ok(())
    }
}

impl<A: Allocator + Copy> ClassIndex<A> {
    /// The index of the rules of a policy, by lists of what rules give. It is made from the last rule on, so that the first link of a chain
    /// so far is the one behind that of the rule before.
    pub fn of(
        alloc: A,
        resolved: &Resolved<A>,
        permissions: &Lists<ClassPermission, A>,
    ) -> Result<Self, AllocError>
        requires { AreOrdered resolved.now.rules.items permissions.now.0 }
        ensures { IfOk result (IsIndexOf resolved.now permissions.now.0) }
    {
        let rules = resolved.rules();
        let mut index = ClassIndex {
            first: vec![in alloc; None; resolved.names_len()]?,
            of_set: vec![in alloc; None; resolved.names_len()]?,
            links: Vec::with_capacity(alloc, rules.len())?,
        };
        for place in (0..rules.len()).rev() {
            let rule = &rules[place];
            if rule.kind == RuleKind::Allow {
                index.put(place, rule, given_at(rules, permissions, place))?;
            }
        }
        Ok(index)
    }
}
