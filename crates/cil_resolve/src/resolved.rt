//! What a joined policy resolves to.

ghost use Rattle.std.specs.Prelude.{◌<◌, ◌^◌, AllPairs, Contains, IsTrue, length, map};
ghost use Rattle.std.specs.List.{list_all};
ghost use Rattle.std.specs.List.Sorted.{IsStrictlySortedBy};
ghost use Rattle.cil_specs.specs.Report.{names_rise};
ghost use Rattle.cil_resolve.specs.Below.{is_rule_below, is_written_below, is_name_below, is_class_below, is_set_below};
ghost use Rattle.cil_specs.specs.Members.{HasSoundSets};
ghost use Rattle.cil_specs.specs.Violations.{rule_cmp};
ghost use Rattle.std.proofs.Props.{props};
ghost use Rattle.cil_resolve.specs.Apart.{StandApart};
ghost use Rattle.cil_resolve.specs.Numbers.{AreConsistent, GivesNumbered, keeps_no_list, meaning_by, rule_of, set_of};

use crate::numbered::{
    DroppedOptional, NumberedClass, NumberedName, NumberedPermissionSet, NumberedRule,
};
use crate::set_order::OrderedSets;
use crate::text::Text;
use std::alloc::{Allocator, Global};

/// A policy that compiles, by full names, which it owns. The names of types, attributes, classes, permission sets and permissions are
/// numbered in the order of their bytes, so that the order of the numbers is that of the names. Its rules name what it declares: types,
/// attributes, and classes with their permissions; so do its set statements, and what it says of permission sets; and no attribute
/// depends on itself. No two set statements stand at one place, and there are fewer than 2^32. Its rules stand in the order of their
/// modules and offsets, and each gives the permissions that it has by number.
#[derive(Drop)]
pub struct Resolved<A: Allocator = Global> {
    pub(crate) modules: Vec<Text<A>, A>,
    pub(crate) names: Vec<Text<A>, A>,
    pub(crate) types: Vec<NumberedName, A>,
    pub(crate) attributes: Vec<NumberedName, A>,
    pub(crate) classes: Vec<NumberedClass<A>, A>,
    pub(crate) permission_sets: Vec<NumberedPermissionSet<A>, A>,
    pub(crate) sets: OrderedSets<A>,
    pub(crate) rules: Vec<NumberedRule<A>, A>,
    pub(crate) dropped: Vec<DroppedOptional<A>, A>,
    pub(crate) ghost ordered: { IsTrue (names_rise names.items) },
    pub(crate) ghost types_within: { IsTrue (list_all (is_name_below (length names.items)) types.items) },
    pub(crate) ghost attributes_within: { IsTrue (list_all (is_name_below (length names.items)) attributes.items) },
    pub(crate) ghost classes_within: { IsTrue (list_all (is_class_below (length names.items)) classes.items) },
    pub(crate) ghost sets_within: { IsTrue (list_all (is_set_below (length names.items)) sets.sets.items) },
    pub(crate) ghost rules_within: { IsTrue (list_all (is_rule_below (length names.items)) rules.items) },
    pub(crate) ghost written_within: { IsTrue (list_all (is_written_below (length names.items)) rules.items) },
    pub(crate) ghost no_lists: { IsTrue (list_all keeps_no_list rules.items) },
    pub(crate) ghost sound: { HasSoundSets (meaning_by modules.items names.items types.items attributes.items classes.items permission_sets.items sets.sets.items rules.items dropped.items) },
    pub(crate) ghost apart: { AllPairs StandApart (map (set_of modules.items names.items) sets.sets.items) },
    pub(crate) ghost few: { length sets.sets.items < 2 ^ 32 },
    pub(crate) ghost rules_ordered: { IsStrictlySortedBy rule_cmp (map (rule_of modules.items names.items) rules.items) } by { Prim.hlevel props },
    pub(crate) ghost permitted: { (r : _) → Contains rules.items r → GivesNumbered (meaning_by modules.items names.items types.items attributes.items classes.items permission_sets.items sets.sets.items rules.items dropped.items) modules.items names.items r } by { Prim.hlevel props },
    pub(crate) ghost consistent: { AreConsistent modules.items names.items types.items attributes.items classes.items permission_sets.items rules.items },
}
