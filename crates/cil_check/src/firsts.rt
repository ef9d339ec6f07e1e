//! Which statement is the first that gives something to a declaration.

ghost use Rattle.std.specs.Prelude.{◌+◌, [], take, slice_get, ◌≡◌, List, Some, OnOk, OnErr};
ghost use Rattle.cil_check.specs.Common.{Placed, IsLead, IsSeen, association_table, given_kind, given_lead, first_at, with_first};
ghost use Rattle.cil_check.specs.Associations.{HasFirstsOf};

use crate::bound::Seen;
use cil_parse::StatementKind;
use indexmap::IndexMap;
use std::alloc::{AllocError, Allocator, Global};
use std::hash::{BuildHasherDefault, FoldHasher};
use std::marker::Model;

/// For declarations, by the places of their statements, the place of the first statement that gives them something.
#[derive(Drop)]
pub struct Firsts<A: Allocator = Global> {
    places: IndexMap<u32, u32, BuildHasherDefault<FoldHasher>, A>,
}

impl<A: Allocator> Model for Firsts<A> {
    ghost use Rattle.std.specs.Prelude.{List, ℕ};

    ghost Value = { List (ℕ × ℕ) };

    ghost view = { λ f. f.places.entries };
}

/// What statements give: an actual type to an alias, or a common to a class.
#[derive(Clone, Copy, PartialEq, Eq)]
pub enum Association {
    Actual,
    Common,
}

impl Association {
    /// Whether statements of a kind give this, to what their first reference leads to.
    pub fn is_given_by(self, kind: StatementKind) -> bool
        ensures { result ≡ given_kind self kind }
    {
        match (self, kind) {
            (Association::Actual, StatementKind::TypeAliasActual) => true,
            (Association::Common, StatementKind::ClassCommon) => true,
            _ => false,
        }
    }

    /// What a statement gives this to, by its place.
    pub fn lead<A: Allocator>(self, seen: &Seen<'_, '_, A>) -> Option<u32>
        ensures { (policy : List Placed) (s : Placed) → IsSeen seen.now policy s → IsLead (association_table self) policy result (given_lead self policy s) }
    {
        if self.is_given_by(seen.view.kind) {
            seen.lead(0)
        } else {
            None
        }
    }
}

impl<A: Allocator + Copy> Firsts<A> {
    /// No statement.
    pub(crate) fn new(alloc: A) -> Self
        ensures { result ≡ [] }
    {
        Firsts {
            places: IndexMap::new(alloc),
        }
    }

    /// Takes up the statement of a place, if it gives this, and none came before.
    pub(crate) fn note(
        &mut self,
        association: Association,
        seen: &Seen<'_, '_, A>,
        place: u32,
    ) -> Result<(), AllocError>
        ensures { OnOk result ((policy : List Placed) (s : Placed) → IsSeen seen.now policy s
            → slice_get policy place ≡ Some s
            → HasFirstsOf association policy (take place policy) self.old
            → HasFirstsOf association policy (take (place + 1) policy) self.new) }
    {
        let Some(to) = association.lead(seen) else {
            return Ok(());
        };
        self.insert(to, place)?;
        Ok(())
    }

    /// Takes up a statement, if none came before.
    fn insert(&mut self, to: u32, place: u32) -> Result<(), AllocError>
        ensures ok { OnOk result (self.new ≡ with_first self.old to place) }
        ensures err { OnErr result (self.new ≡ self.old) }
    {
        if self.places.contains_key(&to) {
            return Ok(());
        }
        self.places.insert(to, place)?;
        Ok(())
    }
}

impl<A: Allocator> Firsts<A> {
    /// The place of the first statement that gives something to the declaration at a place.
    pub fn get(&self, place: u32) -> Option<u32>
        ensures { result ≡ first_at self.now place }
    {
        self.places.get(&place).copied()
    }
}
