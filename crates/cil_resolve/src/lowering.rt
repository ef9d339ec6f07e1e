//! A policy without faults by the numbers of its names.

ghost use Rattle.std.specs.Prelude.{◌≡◌, ◌<◌, ◌++◌, ◌∷◌, List, [], Some, None, length, slice_get, slice_index_or, Contains, IsTrue, IfOk, OnOk};
ghost use Rattle.cil_resolve.specs.Common.{Word, Placed, types, classes, permission_sets, leads, references, is_numbered, IsElement, IsLowering, IsIn, Refers, IsDeclared, IsClass, AddsClass, ArePartsOf, ArePermissionSets, modules_of, AreNaming, KnowNumbers, KnowSets, StayKnown, number_in};
ghost use Rattle.cil_specs.specs.PolicyFault.{element_words};
ghost use Rattle.cil_specs.specs.Rule.{element_of as element_led, class_name, is_class, name_or_none, permission_sets_of};

use crate::given_sets::GivenSets;
use crate::known_permissions::KnownPermissions;
use crate::naming::{Naming, Room};
use crate::numbered::{
    NumberedClass, NumberedName, NumberedPermissionSet, NumberedRule, NumberedSet,
};
use crate::numbering::Numbering;
use crate::words::number_at;
use cil_check::{Checker, Seen};
use cil_expression::Element;
use cil_names::counted_in_32_bits;
use cil_parse::StatementKind;
use std::alloc::{AllocError, Allocator, Global};

/// The types, attributes, classes, statements of permission sets, set statements and rules of a policy, in the order of their statements.
#[derive(Drop)]
pub struct Parts<A: Allocator = Global> {
    pub types: Vec<NumberedName, A>,
    pub attributes: Vec<NumberedName, A>,
    pub classes: Vec<NumberedClass<A>, A>,
    pub permission_sets: Vec<NumberedPermissionSet<A>, A>,
    pub sets: Vec<NumberedSet<A>, A>,
    pub rules: Vec<NumberedRule<A>, A>,
}

/// What makes a policy's numbers: its statements, the numbers of its names, and for each statement what a name that leads there stands for.
#[derive(Drop)]
pub struct Lowering<'l, 'p, 'm, A: Allocator = Global> {
    pub alloc: A,
    pub checker: &'l Checker<'p, 'm, A>,
    pub numbering: &'l Numbering<A>,
    pub elements: &'l [Element],
}

impl<'l, 'p, 'm, A: Allocator + Copy> Lowering<'l, 'p, 'm, A> {
    /// The number of the module of the statement of a place.
    pub(crate) fn module(&self, i: usize) -> u32
        requires { (policy : List Placed) × IsLowering self.now policy × (i < length policy) }
        ensures { (policy : List Placed) (s : Placed) → IsLowering self.now policy → slice_get policy i ≡ Some s → slice_index_or (modules_of self.now.checker.now.bound.joined.now) result [] ≡ s.module_name }
    {
        let bound = &self.checker.bound;
        let policy = bound.policy;
        policy.rows[i].module
    }

    /// The statement of a place, as it is seen.
    #[inline(always)]
    pub(crate) fn seen(&self, i: usize) -> Seen<'p, 'm, A>
        requires { (policy : List Placed) × (s : Placed) × IsLowering self.now policy
            × (slice_get policy i ≡ Some s) }
        ensures { (policy : List Placed) (s : Placed) → IsLowering self.now policy
            → slice_get policy i ≡ Some s → IsIn self.now result policy s }
    {
        self.checker.bound.seen(i)
    }

    /// The place that a reference of a statement leads to. In a policy without faults each leads
    /// somewhere.
    #[inline(always)]
    pub(crate) fn place(&self, seen: &Seen<'p, 'm, A>, k: usize) -> usize
        requires { Refers self.now seen.now k }
        ensures led { slice_index_or seen.now.bound k None ≡ Some result }
        ensures element { result < length self.now.elements.now }
        ensures number { result < length self.now.numbering.now.places.items }
    {
        let Some(place) = seen.lead(k) else {
            unreachable!("the reference leads somewhere");
        };
        place as usize
    }

    /// What a reference of a statement stands for, an alias for its actual type.
    pub(crate) fn element(&self, seen: &Seen<'p, 'm, A>, k: usize) -> Element
        requires { Refers self.now seen.now k }
        ensures { (policy : List Placed) (s : Placed) (word : Word) → IsIn self.now seen.now policy s → slice_get (references s.form) k ≡ Some (types, word) → Contains (element_words s.form) word
            → IsElement self.now.numbering.now.names.items result (element_led policy s.namespace word) }
    {
        self.elements[self.place(seen, k)]
    }

    /// The number of the class, or of the permission set, that a reference of a statement leads to.
    pub(crate) fn number(&self, seen: &Seen<'p, 'm, A>, k: usize) -> usize
        requires { Refers self.now seen.now k }
        ensures class { (policy : List Placed) (s : Placed) (word : Word) → IsIn self.now seen.now policy s
            → slice_get (references s.form) k ≡ Some (classes, word)
            → number_in self.now.numbering.now.names.items (class_name policy s.namespace word) ≡ Some result }
        ensures set { (policy : List Placed) (s : Placed) (word : Word) → IsIn self.now seen.now policy s
            → slice_get (references s.form) k ≡ Some (permission_sets, word)
            → number_in self.now.numbering.now.names.items
            (name_or_none permission_sets (leads policy permission_sets s.namespace word.text)) ≡ Some result }
    {
        self.numbering.places[self.place(seen, k)] as usize
    }

    /// The type or the attribute that the statement of a place declares.
    fn declared(&self, i: usize) -> NumberedName
        requires { (policy : List Placed) × IsLowering self.now policy × (i < length policy) }
        ensures { (policy : List Placed) (s : Placed) → IsLowering self.now policy → slice_get policy i ≡ Some s → IsTrue (is_numbered s.form)
            → IsDeclared (modules_of self.now.checker.now.bound.joined.now) self.now.numbering.now.names.items result s }
    {
        let seen = self.checker.bound.seen(i);
        NumberedName {
            module: self.module(i),
            at: seen.view.at,
            name: number_at(&self.numbering.places, i) as usize,
        }
    }

    /// The class that the statement of a place declares.
    fn class_at(&self, i: u32) -> Result<NumberedClass<A>, AllocError>
        requires { (policy : List Placed) × IsLowering self.now policy × (i < length policy) }
        ensures { IfOk result (λ class. (policy : List Placed) (s : Placed) → IsLowering self.now policy → slice_get policy i ≡ Some s → IsTrue (is_class s.form)
            → IsClass (modules_of self.now.checker.now.bound.joined.now) self.now.numbering.now.names.items class policy s) }
    {
        let declared = self.declared(i as usize);
        Ok(NumberedClass {
            module: declared.module,
            at: declared.at,
            name: declared.name,
            permissions: self.class_permissions(i)?,
        })
    }

    /// Puts the class that the statement of a place declares behind others.
    #[inline(never)]
    fn add_class(&self, classes: &mut Vec<NumberedClass<A>, A>, i: u32) -> Result<(), AllocError>
        requires { (policy : List Placed) × IsLowering self.now policy × (i < length policy) }
        ensures { OnOk result ((policy : List Placed) (s : Placed) → IsLowering self.now policy
            → slice_get policy i ≡ Some s → IsTrue (is_class s.form)
            → AddsClass (modules_of self.now.checker.now.bound.joined.now) self.now.numbering.now.names.items
            policy s classes.old.items classes.new.items) }
    {
        classes.push(self.class_at(i)?)?;
        Ok(())
    }

    /// Takes up what the statement of a place declares or says, but for what it says of a permission set. By its kind it is told what of
    /// it is looked at.
    fn add(
        &self,
        known: &mut KnownPermissions<A>,
        given: &GivenSets<A>,
        parts: &mut Parts<A>,
        i: u32,
    ) -> Result<(), AllocError>
        requires { (policy : List Placed) × IsLowering self.now policy × (i < length policy) }
        ensures parts { OnOk result ((policy statements : List Placed) (s : Placed) → IsLowering self.now policy
            → slice_get policy i ≡ Some s → KnowNumbers self.now known.old policy → KnowSets self.now given.now policy
            → ArePartsOf (modules_of self.now.checker.now.bound.joined.now) self.now.numbering.now.names.items policy statements parts.old
            → ArePartsOf (modules_of self.now.checker.now.bound.joined.now) self.now.numbering.now.names.items policy (statements ++ s ∷ []) parts.new) }
        ensures known { OnOk result (StayKnown self.now known.old known.new) }
    {
        match self.checker.bound.kind(i as usize) {
            StatementKind::TypeName => parts.types.push(self.declared(i as usize))?,
            StatementKind::TypeAttribute => parts.attributes.push(self.declared(i as usize))?,
            StatementKind::Class => self.add_class(&mut parts.classes, i)?,
            StatementKind::TypeAttributeSet => self.add_set(&mut parts.sets, i as usize)?,
            StatementKind::Rule(_) | StatementKind::RuleToSelf(_) => {
                self.add_rule_of_class(known, &mut parts.rules, i as usize)?;
            }
            StatementKind::RuleOfSet(_) | StatementKind::RuleToSelfOfSet(_) => {
                self.add_rule_of_set(given, &mut parts.rules, i as usize)?;
            }
            _ => {}
        }
        Ok(())
    }

    /// No parts but what is said of permission sets, with room for the others.
    fn no_parts(
        &self,
        room: &Room,
        permission_sets: Vec<NumberedPermissionSet<A>, A>,
    ) -> Result<Parts<A>, AllocError>
        ensures { IfOk result (λ parts. (policy : List Placed)
            → ArePermissionSets (modules_of self.now.checker.now.bound.joined.now) self.now.numbering.now.names.items policy permission_sets.items (permission_sets_of policy)
            → ArePartsOf (modules_of self.now.checker.now.bound.joined.now) self.now.numbering.now.names.items policy [] parts) }
    {
        Ok(Parts {
            types: Vec::new(self.alloc),
            attributes: Vec::new(self.alloc),
            classes: Vec::new(self.alloc),
            permission_sets,
            sets: Vec::with_capacity(self.alloc, room.sets)?,
            rules: Vec::with_capacity(self.alloc, room.rules)?,
        })
    }

    /// The types, attributes, classes, statements of permission sets, set statements and rules of the policy, in the order of their
    /// statements. What permission sets give is worked out before the rules, which may stand in front of their statements. A policy of
    /// more than 4294967295 statements is answered as out of memory.
    pub fn parts(&self, naming: &Naming<A>) -> Result<Parts<A>, AllocError>
        requires { (policy : List Placed) × IsLowering self.now policy × AreNaming policy naming.now.places.items }
        ensures { IfOk result (λ parts. (policy : List Placed) → IsLowering self.now policy → AreNaming policy naming.now.places.items
            → ArePartsOf (modules_of self.now.checker.now.bound.joined.now) self.now.numbering.now.names.items policy policy parts) }
    {
        let count = self.checker.bound.len();
        counted_in_32_bits(count)?;
        let mut known = KnownPermissions::new();
        let room = &naming.room;
        let permission_sets = self.permission_sets(
            &mut known,
            &naming.places,
            room.permission_sets,
        )?;
        let given = GivenSets::of(self.alloc, &permission_sets)?;
        let mut parts = self.no_parts(room, permission_sets)?;
        for i in 0..count {
            self.add(&mut known, &given, &mut parts, i as u32)?;
        }
        Ok(parts)
    }
}
