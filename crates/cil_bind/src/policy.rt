//! A joined policy whose references are bound.

ghost use Rattle.std.specs.Prelude.{◌≡◌, ◌<◌, ◌^◌, [], ℕ, IfOk, OnOk, List, false, filter, bytes_eq, length, slice_index_or};
ghost use Rattle.cil_bind.specs.Common.{IsDistinct, list_all, AreSpelt, AreFrom, AreAround, StandsFor, HaveDeclared, IsOnce, Makes, IsBoundTo, AreMarked, TellsAround, AreWorded, IsNumbered, Optionals, AreApart, restricted, bound_of, kinds_told, Knows};
ghost use Rattle.cil_bind.specs.Parts.{made_of, with_leads};
ghost use Rattle.cil_bind.specs.Moves.{AreAllFound};
ghost use Rattle.cil_bind.specs.AboutNames.{name_places as places_of_kinds};
ghost use Rattle.cil_specs.specs.Joined.{Placed, Module, joined as joined_policy};

use crate::about_names::name_places;
use crate::declarations::{Declarations, Declared};
use crate::joined::Joined;
use crate::lead::Lead;
use crate::leads::{Asked, leads};
use crate::moves::keep_rows;
use crate::redeclaration::Redeclaration;
use crate::references::References;
use crate::rows::{Row, is_kept};
use crate::scope::Scope;
use crate::words::number_modules;
use cil_lookup::Lookup;
use cil_names::{Names, counted_in_32_bits};
use cil_parse::{Lists, StatementKind};
use std::alloc::{AllocError, Allocator, Global};

/// A joined policy: its words in one numbering, with the numbers of each module's names; its namespaces and the first declaration of each
/// name; its statements; for each of what a module's statements look up the namespace from which it is looked up, and the place where it
/// leads; for each statement its kind; and the places of the statements about names.
#[derive(Drop)]
pub struct Policy<'m, A: Allocator = Global> {
    pub names: Names<'m, A>,
    pub words: Vec<Vec<u32, A>, A>,
    pub lookup: Lookup<A>,
    pub rows: Vec<Row, A>,
    pub spaces: Lists<u32, A>,
    pub leads: Lists<Lead, A>,
    pub kinds: Vec<StatementKind, A>,
    pub name_places: Vec<u32, A>,
}

/// For each module the numbers of its names, and the namespaces from which its statements look up;
/// and the places of the statements about names.
#[derive(Drop)]
struct Numbers<A: Allocator = Global> {
    words: Vec<Vec<u32, A>, A>,
    spaces: Lists<u32, A>,
    name_places: Vec<u32, A>,
}

impl<A: Allocator + Copy> Numbers<A> {
    /// Those of modules whose names have these numbers, and of their statements, of which there are fewer than 2^32.
    fn of(
        alloc: A,
        joined: &Joined<'_, A>,
        scope: &Scope<'_, A>,
        words: Vec<Vec<u32, A>, A>,
    ) -> Result<Self, AllocError>
        requires stands { (modules : List Module) × AreSpelt joined.now.modules.items modules × StandsFor scope.now (joined_policy modules) }
        requires kinds { scope.now.kinds.items ≡ kinds_told scope.now.rows.items }
        ensures numbered { IfOk result (λ numbers. AreWorded scope.now.names words.items joined.now.modules.items
            → IsNumbered scope.now.names scope.now.namespaces joined.now.modules.items numbers) }
        ensures places { IfOk result (λ numbers. numbers.name_places.items ≡ places_of_kinds 0 scope.now.kinds.items) }
        ensures few { IfOk result (λ numbers. length scope.now.rows.items < 2 ^ 32) }
    {
        counted_in_32_bits(scope.rows.len())?;
        let spaces = scope.spaces(alloc, joined)?;
        let name_places = name_places(alloc, scope.kinds.as_slice())?;
        Ok(Numbers {
            words,
            spaces,
            name_places,
        })
    }
}

/// A policy in which each name is declared once, or the first name that is declared again.
#[derive(Drop)]
pub enum Joining<'m, A: Allocator = Global> {
    Once(Policy<'m, A>),
    Twice(Redeclaration<'m>),
}

impl<'m, A: Allocator + Copy> Policy<'m, A> {
    /// The joined policy of modules. One of 2^32 statements or more is answered as out of memory.
    pub fn of(alloc: A, joined: &Joined<'m, A>) -> Result<Joining<'m, A>, AllocError>
        requires { (modules : List Module) × AreSpelt joined.now.modules.items modules }
        ensures made { IfOk result (λ made. (modules : List Module) → AreSpelt joined.now.modules.items modules → Makes joined.now.modules.items (joined_policy modules) made) }
        ensures around { IfOk result (λ made. (modules : List Module) → AreSpelt joined.now.modules.items modules → TellsAround (joined_policy modules) made) }
    {
        let mut names = Names::new(alloc, joined.seed);
        let words = number_modules(alloc, &mut names, joined)?;
        Policy::of_names(alloc, joined, names, words)
    }

    /// The joined policy of modules whose words have numbers.
    fn of_names(
        alloc: A,
        joined: &Joined<'m, A>,
        names: Names<'m, A>,
        words: Vec<Vec<u32, A>, A>,
    ) -> Result<Joining<'m, A>, AllocError>
        requires spelt { (modules : List Module) × AreSpelt joined.now.modules.items modules }
        requires distinct { IsDistinct bytes_eq names }
        requires worded { AreWorded names words.items joined.now.modules.items }
        ensures made { IfOk result (λ made. (modules : List Module) → AreSpelt joined.now.modules.items modules → Makes joined.now.modules.items (joined_policy modules) made) }
        ensures around { IfOk result (λ made. (modules : List Module) → AreSpelt joined.now.modules.items modules → TellsAround (joined_policy modules) made) }
    {
        let scope = Scope::of(alloc, names, joined)?;
        let numbers = Numbers::of(alloc, joined, &scope, words)?;
        Policy::of_statements(alloc, joined, scope, numbers)
    }

    /// The policy of statements by numbers, or the first name that they declare again.
    fn of_statements(
        alloc: A,
        joined: &Joined<'m, A>,
        scope: Scope<'m, A>,
        numbers: Numbers<A>,
    ) -> Result<Joining<'m, A>, AllocError>
        requires stands { (policy : List Placed) × StandsFor scope policy × AreFrom joined.now.modules.items scope.rows.items policy }
        requires numbered { IsNumbered scope.names scope.namespaces joined.now.modules.items numbers }
        requires kinds { scope.kinds.items ≡ kinds_told scope.rows.items }
        requires places { numbers.name_places.items ≡ places_of_kinds 0 scope.kinds.items }
        requires few { length scope.rows.items < 2 ^ 32 }
        ensures made { IfOk result (λ made. (policy : List Placed) → StandsFor scope.entry policy → AreFrom joined.now.modules.items scope.entry.rows.items policy
            → Makes joined.now.modules.items policy made) }
        ensures around { IfOk result (λ made. (policy : List Placed) → AreAround policy 0 scope.entry.rows.items policy → TellsAround policy made) }
    {
        let rows = scope.rows.as_slice();
        let places = numbers.name_places.as_slice();
        let declared = Declarations::of(alloc, scope.names.len(), rows, places)?;
        match declared {
            Declared::Once(declarations) => {
                Policy::of_scope(alloc, joined, scope, numbers, declarations)
            }
            Declared::Twice(place) => {
                let again = Redeclaration::of(joined, &scope.rows[place]);
                // Calls to prove, in place of a drop for each field.
                drop(scope);
                drop(numbers);
                Ok(Joining::Twice(again))
            }
        }
    }

    /// The policy of rows that declare each name once.
    fn of_scope(
        alloc: A,
        joined: &Joined<'m, A>,
        scope: Scope<'m, A>,
        numbers: Numbers<A>,
        declarations: Declarations<A>,
    ) -> Result<Joining<'m, A>, AllocError>
        requires numbered { IsNumbered scope.names scope.namespaces joined.now.modules.items numbers }
        requires kinds { scope.kinds.items ≡ kinds_told scope.rows.items }
        requires places { numbers.name_places.items ≡ places_of_kinds 0 scope.kinds.items }
        requires few { length scope.rows.items < 2 ^ 32 }
        ensures made { IfOk result (λ made. (policy : List Placed) → StandsFor scope.entry policy → AreFrom joined.now.modules.items scope.entry.rows.items policy
            → HaveDeclared scope.entry.names scope.entry.namespaces declarations.first.entries policy → IsOnce policy
            → Makes joined.now.modules.items policy made) }
        ensures around { IfOk result (λ made. (policy : List Placed) → AreAround policy 0 scope.entry.rows.items policy → TellsAround policy made) }
    {
        let leads = Lists::with_capacity(alloc, 0, 0)?;
        let mut policy = Policy::of_parts(scope, numbers, declarations, leads);
        match policy.look_up(alloc, joined, &[]) {
            Ok(()) => Ok(Joining::Once(policy)),
            Err(error) => {
                // One call to prove, in place of a drop for each field.
                drop(policy);
                Err(error)
            }
        }
    }

    /// The policy of its parts.
    fn of_parts(
        scope: Scope<'m, A>,
        numbers: Numbers<A>,
        declarations: Declarations<A>,
        leads: Lists<Lead, A>,
    ) -> Self
        ensures { result ≡ made_of scope.entry numbers declarations leads }
    {
        Policy {
            names: scope.names,
            words: numbers.words,
            lookup: Lookup {
                namespaces: scope.namespaces,
                declared: declarations.first,
            },
            rows: scope.rows,
            spaces: numbers.spaces,
            leads,
            kinds: scope.kinds,
            name_places: numbers.name_places,
        }
    }

    /// The policy of the statements that stand in marked optionals alone, or in none. An optional's mark is that of its number, its place
    /// and 1 more; 0 stands for none. Where all are marked it stays as it is.
    pub fn restrict(
        self,
        alloc: A,
        joined: &Joined<'m, A>,
        kept: &[bool],
    ) -> Result<Self, AllocError>
        requires { (policy : List Placed) × IsBoundTo self joined.now.modules.items policy }
        ensures { IfOk result (λ p. (policy : List Placed) (set : Optionals) → IsBoundTo self.entry joined.now.modules.items policy → AreApart policy
            → AreMarked set kept.now self.entry.rows.items policy → IsBoundTo p joined.now.modules.items (restricted set policy)) }
    {
        let mut policy = self;
        match policy.keep(alloc, joined, kept) {
            Ok(()) => Ok(policy),
            Err(error) => {
                // One call to prove, in place of a drop for each field.
                drop(policy);
                Err(error)
            }
        }
    }

    /// Keeps the statements that stand in marked optionals alone, or in none. Where all are marked it stays as it is.
    fn keep(&mut self, alloc: A, joined: &Joined<'m, A>, kept: &[bool]) -> Result<(), AllocError>
        requires { (policy : List Placed) × IsBoundTo self.old joined.now.modules.items policy }
        ensures { OnOk result ((policy : List Placed) (set : Optionals) → IsBoundTo self.old joined.now.modules.items policy → AreApart policy
            → AreMarked set kept.now self.old.rows.items policy → IsBoundTo self.new joined.now.modules.items (restricted set policy)) }
    {
        if are_kept(self.rows.as_slice(), kept) {
            return Ok(());
        }
        self.leave_out(alloc, joined, kept)
    }

    /// Leaves out the statements whose innermost optional isn't marked, and looks up anew where the others' references led to those.
    fn leave_out(
        &mut self,
        alloc: A,
        joined: &Joined<'m, A>,
        kept: &[bool],
    ) -> Result<(), AllocError>
        requires { (policy : List Placed) × IsBoundTo self.old joined.now.modules.items policy }
        ensures { OnOk result ((policy : List Placed) (set : Optionals) → IsBoundTo self.old joined.now.modules.items policy → AreApart policy
            → AreMarked set kept.now self.old.rows.items policy → IsBoundTo self.new joined.now.modules.items (restricted set policy)) }
    {
        let places = keep_rows(alloc, &mut self.rows, &mut self.kinds, kept)?;
        let room = self.lookup.declared.len();
        let rows = self.rows.as_slice();
        let name_places = name_places(alloc, self.kinds.as_slice())?;
        let declarations = Declarations::of_once(alloc, room, rows, name_places.as_slice())?;
        self.lookup.declared = declarations.first;
        self.name_places = name_places;
        let moved = places.as_slice();
        self.look_up(alloc, joined, moved)?;
        Ok(())
    }

    /// Looks up where what the statements of modules look up leads, but for what led to a statement that has a new place.
    fn look_up(
        &mut self,
        alloc: A,
        joined: &Joined<'m, A>,
        places: &[Lead],
    ) -> Result<(), AllocError>
        requires worded { (names : List (List ℕ)) × AreWorded names self.old.words.items joined.now.modules.items }
        requires spaced { length self.old.spaces.0 ≡ length joined.now.modules.items }
        ensures same { OnOk result (self.new ≡ with_leads self.old self.new.leads) }
        ensures long { OnOk result (length self.new.leads.0 ≡ length joined.now.modules.items) }
        ensures led { OnOk result ((names : List (List ℕ)) (policy : List Placed)
            → Knows self.old.lookup.namespaces self.old.lookup.declared.entries names policy
            → AreWorded names self.old.words.items joined.now.modules.items
            → AreAllFound names self.old.lookup.namespaces policy joined.now.modules.items places.now
            self.old.spaces.0 self.old.leads.0 self.new.leads.0) }
    {
        let asked = Asked {
            words: self.words.as_slice(),
            spaces: &self.spaces,
            led: &self.leads,
            places,
        };
        let leads = leads(alloc, &self.lookup, joined, &asked)?;
        self.leads = leads;
        Ok(())
    }
}

impl<'m, A: Allocator> Policy<'m, A> {
    /// Where the references of the statement at a place lead.
    pub fn references<'p>(&'p self, joined: &'p Joined<'m, A>, i: usize) -> References<'p>
        requires bound { (policy : List Placed) × IsBoundTo self.now joined.now.modules.items policy }
        requires within { i < length self.now.rows.items }
        ensures { result ≡ slice_index_or (bound_of self.now joined.now.modules.items) i [] }
    {
        let row = &self.rows[i];
        let number = row.module as usize;
        let module = joined.modules[number].module;
        References::of(module.cited(row.index as usize), self.leads.get(number))
    }
}

/// Whether the innermost optionals of all rows are marked.
fn are_kept(rows: &[Row], kept: &[bool]) -> bool
    ensures { result ≡ list_all (λ row. slice_index_or kept.now row.optional false) rows.now }
{
    rows.iter().all(|row| is_kept(row, kept))
}
