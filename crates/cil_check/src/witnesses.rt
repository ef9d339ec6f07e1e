//! The commons by which classes that are given several have the permissions that statements name.

ghost use Rattle.std.specs.Prelude.{◌≡◌, List, length};
ghost use Rattle.cil_check.specs.Common.{Placed, IsOf, IsSeen};

use crate::bound::{BoundPolicy, Seen};
use crate::groups::Groups;
use crate::missing::class_lead;
use crate::permissions::{Listed, Permissions};
use indexmap::IndexMap;
use std::alloc::{AllocError, Allocator, Global};
use std::hash::{BuildHasherDefault, FoldHasher};

/// For the permissions that statements name of classes with several commons: at which index among these one stands that lists the
/// permission, if one does. Each is looked for once, so that many statements don't go over many commons each. These are hints, by which no answer changes:
/// who follows one looks at the common there.
#[derive(Drop)]
pub struct Witnesses<A: Allocator = Global> {
    found: IndexMap<Listed, Option<usize>, BuildHasherDefault<FoldHasher>, A>,
}

/// A common that is given to a class, by their places.
#[derive(Clone, Copy, PartialEq, Eq, Hash)]
struct Given {
    class: u32,
    common: u32,
}

/// What is searched for witnesses: the permissions that are listed, and for their numbers the places of the statements that list them; the
/// commons of classes, and at which index each stands.
#[derive(Drop)]
struct Search<'c, A: Allocator = Global> {
    permissions: &'c Permissions<A>,
    listers: Groups<A>,
    inherited: &'c Groups<A>,
    given: IndexMap<Given, usize, BuildHasherDefault<FoldHasher>, A>,
}

/// The places of the statements that list permissions, by the numbers of these.
fn listers<A: Allocator + Copy>(
    alloc: A,
    permissions: &Permissions<A>,
) -> Result<Groups<A>, AllocError> {
    let mut listers = Groups::new(alloc);
    for listed in permissions.listed.iter() {
        listers.insert(alloc, listed.word, listed.owner)?;
    }
    Ok(listers)
}

/// At which index among the commons of classes each stands.
fn indices<A: Allocator + Copy>(
    alloc: A,
    inherited: &Groups<A>,
) -> Result<IndexMap<Given, usize, BuildHasherDefault<FoldHasher>, A>, AllocError> {
    let mut given = IndexMap::new(alloc);
    for class in inherited.keys.iter() {
        for (at, common) in inherited.get(*class).iter().enumerate() {
            let key = Given {
                class: *class,
                common: *common,
            };
            given.insert(key, at)?;
        }
    }
    Ok(given)
}

impl<'c, A: Allocator> Search<'c, A> {
    /// At which index among the commons of a class one of these stands.
    fn given_at(&self, class: u32, commons: &[u32]) -> Option<usize> {
        for common in commons {
            let common = *common;
            if let Some(at) = self.given.get(&Given { class, common }) {
                return Some(*at);
            }
        }
        None
    }

    /// At which index among the commons of a class one stands that lists a permission. The fewer are gone over: the commons, or the
    /// statements that list the permission.
    fn witness(&self, class: u32, word: u32) -> Option<usize> {
        let commons = self.inherited.get(class);
        let listers = self.listers.get(word);
        if listers.len() < commons.len() {
            return self.given_at(class, listers);
        }
        commons
            .iter()
            .position(|common| self.permissions.has(*common, word))
    }
}

impl<A: Allocator + Copy> Witnesses<A> {
    /// No witness.
    pub(crate) fn new(alloc: A) -> Self {
        Witnesses {
            found: IndexMap::new(alloc),
        }
    }

    /// The witnesses for all permissions that the statements of a policy name.
    pub fn of(
        alloc: A,
        bound: &BoundPolicy<'_, '_, A>,
        permissions: &Permissions<A>,
        inherited: &Groups<A>,
    ) -> Result<Self, AllocError>
        requires { (policy : List Placed) × IsOf bound.now policy }
    {
        if inherited.lists.iter().all(|commons| commons.len() < 2) {
            return Ok(Witnesses::new(alloc));
        }
        let listers = listers(alloc, permissions)?;
        let given = indices(alloc, inherited)?;
        let search = Search {
            permissions,
            listers,
            inherited,
            given,
        };
        let mut witnesses = Witnesses::new(alloc);
        witnesses.insert_each(bound, &search)?;
        Ok(witnesses)
    }

    /// Looks for the permissions that the statements of a policy name.
    fn insert_each(
        &mut self,
        bound: &BoundPolicy<'_, '_, A>,
        search: &Search<'_, A>,
    ) -> Result<(), AllocError>
        requires { (policy : List Placed) × IsOf bound.now policy }
    {
        for i in 0..bound.len() {
            let seen = bound.seen(i);
            self.insert_all(search, &seen)?;
        }
        Ok(())
    }

    /// Looks for the permissions that a statement names, if its class has several commons.
    fn insert_all(
        &mut self,
        search: &Search<'_, A>,
        seen: &Seen<'_, '_, A>,
    ) -> Result<(), AllocError>
        requires { (policy : List Placed) × (s : Placed) × IsSeen seen.now policy s }
    {
        let Some(owner) = class_lead(seen) else {
            return Ok(());
        };
        if search.inherited.get(owner).len() < 2 {
            return Ok(());
        }
        for word in seen.view.permissions() {
            let word = seen.number(*word);
            let asked = Listed { owner, word };
            if self.found.contains_key(&asked) {
                continue;
            }
            self.found.insert(asked, search.witness(owner, word))?;
        }
        Ok(())
    }
}

impl<A: Allocator> Witnesses<A> {
    /// At which index among the commons of the class of a place one may stand that lists a permission.
    pub fn get(&self, class: u32, word: u32) -> Option<usize> {
        let found = self.found.get(&Listed { owner: class, word })?;
        *found
    }
}
