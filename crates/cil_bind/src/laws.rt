//! Laws of joined policies. They have no code.

ghost use Rattle.std.specs.Prelude.{ℕ, List, map, IsTrue};
ghost use Rattle.cil_bind.specs.Common.{Optionals, AreApart, IsFirstFault, restricted, twice, IsFaultOf, names_rise, AreSpelt, AreAround, IsFirstAgain, fault_of, IsOnce, Row};
ghost use Rattle.cil_specs.specs.Joined.{Placed, Module, joined as joined_policy};
ghost use Rattle.cil_specs.specs.ModuleText.{IsModuleText};
ghost use Rattle.cil_bind.specs.Ordered.{AreOrdered, IsLeast};
ghost use Rattle.cil_bind.specs.Nested.{AreNested};
ghost use Rattle.cil_bind.specs.Written.{IsWritten, AreWritten, HaveOneNames};
ghost use Rattle.cil_bind.specs.declared.redeclaration.Redeclaration.{Redeclaration};

use crate::joined::Joined;
use std::alloc::Allocator;

/// The modules that parsed modules in order are of have names in order.
pub fn names_are_in_order<A: Allocator>(joined: &Joined<'_, A>)
    ensures { (modules : List Module) → AreSpelt joined.now.modules.items modules → IsTrue (names_rise (map (λ m. m.name) modules)) }
{}

/// The statements of texts in the order of their names stand in order.
pub fn policies_are_ordered()
    ensures { (modules : List Module) → IsTrue (names_rise (map (λ m. m.name) modules)) → AreWritten modules → AreOrdered (joined_policy modules) }
{}

/// The statements of texts are such that blocks, classes, commons and what is said of them stand in no optional.
pub fn policies_are_apart()
    ensures { (modules : List Module) → AreWritten modules → AreApart (joined_policy modules) }
{}

/// What texts declare, the blocks in them and the permissions that they name have names without dots.
pub fn permissions_are_names()
    ensures { (modules : List Module) → AreWritten modules → HaveOneNames (joined_policy modules) }
{}

/// The rows of statements in order, if they tell the innermost optionals around these, are nested.
pub fn rows_are_nested()
    ensures { (rows : List Row) (policy : List Placed) → AreOrdered policy → AreAround policy 0 rows policy → AreNested rows policy }
{}

/// What is kept of statements in order stands in order.
pub fn kept_is_ordered()
    ensures { (set : Optionals) (policy : List Placed) → AreOrdered policy → AreOrdered (restricted set policy) }
{}

/// What is kept of statements that have names without dots has such names.
pub fn kept_permissions_are_names()
    ensures { (set : Optionals) (policy : List Placed) → HaveOneNames policy → HaveOneNames (restricted set policy) }
{}

/// The first name that is declared again is the first fault of its kind, of statements in order.
pub fn first_again_is_least()
    ensures { (policy : List Placed) (again : Redeclaration) → AreOrdered policy → IsFirstAgain policy again → IsLeast (IsFaultOf twice policy) (fault_of again) }
{}

/// It is the first of all faults, whatever is kept, where blocks, classes, commons and what is said of them stand in no optional.
pub fn first_again_is_first_fault()
    ensures { (policy : List Placed) (again : Redeclaration) → AreApart policy → AreOrdered policy → IsFirstAgain policy again → IsFirstFault policy (fault_of again) }
{}

/// What is kept of statements that declare each name once declares each name once.
pub fn kept_is_once()
    ensures { (set : Optionals) (policy : List Placed) → IsOnce policy → IsOnce (restricted set policy) }
{}

/// A module that a text spells is written.
pub fn texts_are_written()
    ensures { (m : Module) (bytes : List ℕ) → IsModuleText bytes m.statements → IsWritten m }
{}
