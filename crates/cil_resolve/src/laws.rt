//! Laws of the definitions. They have no code.

ghost use Rattle.std.specs.Prelude.{◌≡◌, ◌<◌, ◌≤◌, ◌^◌, ℕ, false, List, AllPairs, Contains, IsTrue, is_some, length};
ghost use Rattle.cil_resolve.specs.Common.{IsStrictlySortedBy, Expr, leaves, Placed, Table, has_name, leads, Optionals, restricted, IsWithin, IsGood, AreKept, AreApart, Meaning, Means, keeps_type, is_in, holds, is_member, keeps_attribute, HasSoundSets, Element, rule_cmp, holds_by, StandApart, GivesNumbered, meaning_in, sets_in};
ghost use Rattle.cil_specs.specs.Dependence.{AreInOrder, AreTheSame};
ghost use Rattle.cil_specs.specs.Sets.{holds_with, mentions};
ghost use Rattle.cil_resolve.specs.Consistent.{is_consistent};
ghost use Rattle.cil_resolve.specs.declared.numbered.NumberedRule.{NumberedRule};

use crate::resolved::Resolved;
use std::alloc::Allocator;

/// With more optionals a name that leads somewhere still does. It may lead elsewhere: a nearer declaration hides one further out.
pub fn found_grows()
    ensures { (kept more : Optionals) (policy : List Placed) (table : Table) (namespace : List (List ℕ)) (text : List ℕ) → AreApart policy → IsWithin kept more
        → IsTrue (is_some (leads (restricted kept policy) table namespace text)) → IsTrue (is_some (leads (restricted more policy) table namespace text)) }
{}

/// Where blocks, classes, commons and what is said of them stand in no optional, the kept optionals, which are those of all good sets
/// together, are a good set themselves: the greatest.
pub fn kept_is_good()
    ensures { (policy : List Placed) (kept : Optionals) → AreApart policy → AreKept policy kept → IsGood policy kept }
{}

/// A policy of a store keeps optionals: it has such a set.
pub fn kept_exists()
    ensures { (policy : List Placed) → AreApart policy → (kept : Optionals) × AreKept policy kept }
{}

/// It keeps one set of them.
pub fn kept_is_one()
    ensures { (policy : List Placed) (kept others : Optionals) → AreKept policy kept → AreKept policy others → kept ≡ others }
{}

/// In what a policy means the rules name what is declared: their sources and targets are among the types, or among the attributes,
/// as they say, and their classes among the classes, with these permissions; so do the statements of permission sets.
pub fn meanings_are_consistent()
    ensures { (policy : List Placed) (kept : Optionals) (meaning : Meaning) → AreApart policy
        → Means policy kept meaning → IsTrue (is_consistent meaning) }
{}

/// So do those of what a joined policy resolves to.
pub fn resolved_is_consistent<A: Allocator>(resolved: &Resolved<A>)
    ensures { IsTrue (is_consistent (meaning_in resolved.now)) }
{}

/// The set statements of what a policy means are of attributes that it keeps, mention types and attributes that it keeps, and no
/// attribute depends on itself.
pub fn sets_are_sound()
    ensures { (policy : List Placed) (kept : Optionals) (meaning : Meaning) → AreApart policy → Means policy kept meaning → HasSoundSets meaning }
{}

/// So are those of what a joined policy resolves to.
pub fn resolved_is_sound<A: Allocator>(resolved: &Resolved<A>)
    ensures { HasSoundSets (meaning_in resolved.now) }
{}

/// The set statements as they are listed are those of the meaning, and each stands behind those of the attributes that it mentions.
pub fn resolved_sets_are_in_order<A: Allocator>(resolved: &Resolved<A>)
    ensures in_order { AreInOrder (sets_in resolved.now) }
    ensures the_same { AreTheSame (meaning_in resolved.now).sets (sets_in resolved.now) }
{}

/// No two of them stand in modules of one name at one offset, and there are fewer than 2^32.
pub fn resolved_sets_are_apart<A: Allocator>(resolved: &Resolved<A>)
    ensures apart { AllPairs StandApart (sets_in resolved.now) }
    ensures few { length (sets_in resolved.now) < 2 ^ 32 }
{}

/// The types and the attributes that it keeps are among its names.
pub fn resolved_names_are_kept<A: Allocator>(resolved: &Resolved<A>)
    ensures types { (name : List ℕ) → IsTrue (keeps_type (meaning_in resolved.now) name) → IsTrue (has_name resolved.now.names.items name) }
    ensures attributes { (name : List ℕ) → IsTrue (keeps_attribute (meaning_in resolved.now) name) → IsTrue (has_name resolved.now.names.items name) }
{}

/// Its rules stand in the order of their modules and offsets.
pub fn resolved_rules_are_in_order<A: Allocator>(resolved: &Resolved<A>)
    ensures { IsStrictlySortedBy rule_cmp (meaning_in resolved.now).rules }
{}

/// Each of them gives the permissions at its numbers, each of its class, and no others.
pub fn resolved_rules_permit<A: Allocator>(resolved: &Resolved<A>)
    ensures { (r : NumberedRule A) → Contains resolved.now.rules.items r
        → GivesNumbered (meaning_in resolved.now) resolved.now.modules.items resolved.now.names.items r }
{}

/// Where an expression holds nothing that none of its names does (may_hold_any answers no), a type that it doesn't name is in it only
/// where the type is a member of an attribute that it mentions.
pub fn reach_is_a_bound()
    ensures { (meaning : Meaning) (expr : Expr Element) (t : List ℕ) → holds_by (λ element. false) expr ≡ false
        → ((element : Element) → Contains (leaves expr) element → holds meaning element t ≡ false) → is_in meaning expr t ≡ false }
{}

/// Where the set statements are so and no attribute depends on itself, more fuel than one for each attribute changes nothing.
pub fn fuel_is_enough()
    ensures { (meaning : Meaning) → HasSoundSets meaning → (fuel : ℕ) → length meaning.attributes ≤ fuel → (expr : Expr Element) (t : List ℕ)
        → holds_with meaning.sets fuel expr t ≡ holds_with meaning.sets (length meaning.attributes) expr t }
{}

/// A type is alike in an expression in two policies that keep it and agree on whether it is a member of the attributes that the expression
/// mentions.
pub fn expressions_agree()
    ensures { (old new : Meaning) (expr : Expr Element) (t : List ℕ) → IsTrue (keeps_type old t) → IsTrue (keeps_type new t)
        → ((attribute : List ℕ) → IsTrue (mentions attribute expr) → is_member old attribute t ≡ is_member new attribute t) → is_in old expr t ≡ is_in new expr t }
{}
