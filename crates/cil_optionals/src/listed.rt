//! What classes and commons list, and the commons that are given to classes.

ghost use Rattle.std.specs.Prelude.{◌≡◌, ◌<◌, ◌+◌, ◌&&◌, ◌||◌, ◌==◌, ◌++◌, ◌∷◌, ℕ, [], List, Some, map, length, bytes_eq, position, slice_get, IfOk, OnOk};
ghost use Rattle.cil_optionals.specs.Common.{list_any, Word, Placed, has_name, texts, read, texts_of, IsReady};
ghost use Rattle.std.specs.Cmp.Rules.{hashing};
ghost use Rattle.std.specs.Hash as fed;
ghost use Rattle.std.proofs.Common.{rules};
ghost use Rattle.cil_bind.specs.Listing.{lists_own as lists_own_kind};
ghost use Rattle.cil_optionals.specs.Given.{lists as lists_permission, commons_at, has_gift, listers_at, permissions_in, gift as gift_in, given_at, gives_common as gives_common_kind, IsUpTo, IsInverse};

use crate::modules::module_of;
use cil_bind::{Joined, Policy, References};
use cil_names::{Names, Seed};
use cil_parse::{NumberedWord, ParsedModule, StatementKind};
use indexmap::IndexSet;
use std::alloc::{AllocError, Allocator, Global};
use std::hash::{BuildHasherDefault, FoldHasher, Hash, Hasher};

/// A permission that the class or the common at a place lists.
#[derive(Clone, Copy, PartialEq, Eq)]
pub struct Permission<'m> {
    pub place: u32,
    pub name: &'m [u8],
}

impl<'m> Hash for Permission<'m> {
    ghost hash_input = { λ permission. fed.u32 permission.place ++ permission.name.now ∷ [] };

    ghost respects_eq = { Prim.search (hashing, rules) };

    fn hash<H: Hasher>(&self, state: &mut H) {
        state.write_u32(self.place);
        state.write(self.name);
    }
}

/// A common that is given to a class, by their places.
#[derive(Clone, Copy, PartialEq, Eq, Hash)]
pub struct Gift {
    pub class: u32,
    pub common: u32,
}

/// The permissions that classes and commons list, and for the places of classes the commons that are given to them. A class has what
/// its commons list, which is never copied to it. Both stand the other way round too: the commons that are given as pairs, and for each
/// name the places of the statements that list it.
#[derive(Drop)]
pub struct Listed<'m, A: Allocator = Global> {
    listed: IndexSet<Permission<'m>, Seed, A>,
    given: Vec<Vec<u32, A>, A>,
    gifts: IndexSet<Gift, BuildHasherDefault<FoldHasher>, A>,
    names: Names<'m, A>,
    listers: Vec<Vec<u32, A>, A>,
}

/// Whether statements of a kind list permissions of their own.
fn lists_own(kind: StatementKind) -> bool
    ensures { result ≡ lists_own_kind kind }
{
    matches!(kind, StatementKind::Class | StatementKind::Common)
}

/// Whether statements of a kind give a common to a class.
fn gives_common(kind: StatementKind) -> bool
    ensures { result ≡ gives_common_kind kind }
{
    matches!(kind, StatementKind::ClassCommon)
}

/// The class and the common of two references, by what these are bound to.
fn gift_of(bound: &References<'_>) -> Option<(u32, u32)>
    ensures { result ≡ gift_in bound.now }
{
    if bound.len() != 2 {
        return None;
    }
    Some((bound.place(0)?, bound.place(1)?))
}

/// Makes room for the commons that are given to the class at a place. Classes are few, and mostly stand early in a policy.
fn make_room<A: Allocator + Copy>(
    given: &mut Vec<Vec<u32, A>, A>,
    alloc: A,
    class: usize,
) -> Result<(), AllocError>
    ensures room { OnOk result (class < length given.new.items) }
    ensures same { OnOk result ((i : ℕ) → commons_at given.new.items i ≡ commons_at given.old.items i) }
{
    while given.len() <= class {
        given.push(Vec::new(alloc))?;
    }
    Ok(())
}

impl<'m, A: Allocator + Copy> Listed<'m, A> {
    /// What nothing lists, where at no place a common is given yet.
    pub fn new(alloc: A, seed: Seed) -> Self
        ensures up_to { (all : List Placed) → IsUpTo all 0 result }
        ensures inverse { IsInverse result }
    {
        Listed {
            listed: IndexSet::with_hasher(alloc, seed),
            given: Vec::new(alloc),
            gifts: IndexSet::new(alloc),
            names: Names::new(alloc, seed),
            listers: Vec::new(alloc),
        }
    }

    /// Takes up the permissions that the statement at a place lists, or the common that it gives to a class.
    pub fn add(
        &mut self,
        alloc: A,
        joined: &Joined<'m, A>,
        policy: &Policy<'m, A>,
        i: usize,
    ) -> Result<(), AllocError>
        requires { (all : List Placed) × (s : Placed) × IsReady policy.now joined.now.modules.items all × slice_get all i ≡ Some s × IsInverse self.old }
        ensures up_to { OnOk result ((all : List Placed) (s : Placed) → IsReady policy.now joined.now.modules.items all → slice_get all i ≡ Some s
            → IsUpTo all i self.old → IsUpTo all (i + 1) self.new) }
        ensures inverse { OnOk result (IsInverse self.new) }
    {
        let kind = policy.kinds[i];
        if lists_own(kind) {
            let module = module_of(joined, policy, i);
            let row = policy.rows[i];
            let view = module.statement(row.index as usize);
            self.list(alloc, i as u32, module, view.permissions())?;
            return Ok(());
        }
        if gives_common(kind) {
            let bound = policy.references(joined, i);
            self.give(alloc, gift_of(&bound))?;
        }
        Ok(())
    }

    /// Takes up permissions that the statement at a place lists.
    #[inline(never)]
    fn list(
        &mut self,
        alloc: A,
        place: u32,
        module: &'m ParsedModule<A>,
        words: &[NumberedWord],
    ) -> Result<(), AllocError>
        requires inverse { IsInverse self.old }
        requires words { (list : List Word) × (map (read (texts_of «module».now)) words.now ≡ map Some list) }
        ensures listed { OnOk result ((list : List Word) → map (read (texts_of «module».now)) words.now ≡ map Some list → (i : ℕ) (name : List ℕ)
            → lists_permission self.new.listed.keys i name ≡ (lists_permission self.old.listed.keys i name || (i == place && has_name (texts list) name))) }
        ensures given { OnOk result (self.new.given.items ≡ self.old.given.items) }
        ensures inverse { OnOk result (IsInverse self.new) }
    {
        for word in words {
            self.insert(alloc, place, module.text(word.text as usize))?;
        }
        Ok(())
    }

    /// Takes up a permission that the statement at a place lists.
    fn insert(&mut self, alloc: A, place: u32, name: &'m [u8]) -> Result<(), AllocError>
        requires { IsInverse self.old }
        ensures listed { OnOk result ((i : ℕ) (other : List ℕ) → lists_permission self.new.listed.keys i other ≡ (lists_permission self.old.listed.keys i other || (i == place && bytes_eq other name.now))) }
        ensures given { OnOk result (self.new.given.items ≡ self.old.given.items) }
        ensures inverse { OnOk result (IsInverse self.new) }
    {
        let number = self.number(alloc, name)?;
        self.listers[number].push(place)?;
        self.listed.insert(Permission { place, name })?;
        Ok(())
    }

    /// The number of a name, a new one, which no statement lists yet, where it has none.
    fn number(&mut self, alloc: A, name: &'m [u8]) -> Result<usize, AllocError>
        requires { length self.old.names ≡ length self.old.listers.items }
        ensures long { OnOk result (length self.new.names ≡ length self.new.listers.items) }
        ensures named { IfOk result (λ number. position (bytes_eq name.now) self.new.names ≡ Some number) }
        ensures listers { OnOk result ((other : List ℕ) → listers_at self.new.names self.new.listers.items other ≡ listers_at self.old.names self.old.listers.items other) }
        ensures listed { OnOk result (self.new.listed ≡ self.old.listed) }
        ensures given { OnOk result (self.new.given ≡ self.old.given) }
        ensures gifts { OnOk result (self.new.gifts ≡ self.old.gifts) }
    {
        if let Some(number) = self.names.find(name) {
            return Ok(number);
        }
        let number = self.listers.len();
        self.listers.push(Vec::new(alloc))?;
        self.names.insert(name)?;
        Ok(number)
    }

    /// Takes up a common that is given to a class, if one is, by their places.
    #[inline(never)]
    fn give(&mut self, alloc: A, gift: Option<(u32, u32)>) -> Result<(), AllocError>
        requires inverse { IsInverse self.old }
        ensures given { OnOk result ((i : ℕ) → commons_at self.new.given.items i ≡ commons_at self.old.given.items i ++ given_at gift i) }
        ensures listed { OnOk result (self.new.listed.keys ≡ self.old.listed.keys) }
        ensures inverse { OnOk result (IsInverse self.new) }
    {
        let Some((class, common)) = gift else {
            return Ok(());
        };
        make_room(&mut self.given, alloc, class as usize)?;
        self.given[class as usize].push(common)?;
        self.gifts.insert(Gift { class, common })?;
        Ok(())
    }
}

impl<'m, A: Allocator> Listed<'m, A> {
    /// Whether the statement at a place lists a permission.
    fn lists(&self, place: u32, name: &'m [u8]) -> bool
        ensures { result ≡ lists_permission self.now.listed.keys place name.now }
    {
        self.listed.contains(&Permission { place, name })
    }

    /// Whether one of the statements at these places lists a permission.
    fn any_lists(&self, commons: &[u32], name: &'m [u8]) -> bool
        ensures { result ≡ list_any (λ common. lists_permission self.now.listed.keys common name.now) commons.now }
    {
        commons.iter().any(|common| self.lists(*common, name))
    }

    /// Whether one of the commons at these places is given to the class at a place.
    fn any_given(&self, class: u32, commons: &[u32]) -> bool
        ensures { result ≡ list_any (λ common. has_gift self.now.gifts.keys class common) commons.now }
    {
        commons.iter().any(|common| self.gifts.contains(&Gift {
            class,
            common: *common,
        }))
    }

    /// The places of the statements that list a name.
    fn listers(&self, name: &'m [u8]) -> &[u32]
        requires { length self.now.names ≡ length self.now.listers.items }
        ensures { result.now ≡ listers_at self.now.names self.now.listers.items name.now }
    {
        match self.names.find(name) {
            Some(number) => self.listers[number].as_slice(),
            None => &[],
        }
    }

    /// Whether the class at a place has a permission, of its own or of a common that is given to it. The fewer are gone over: its commons, or
    /// the statements that list the name.
    pub fn has(&self, class: u32, name: &'m [u8]) -> bool
        requires { IsInverse self.now }
        ensures { result ≡ permissions_in self.now class name.now }
    {
        if self.lists(class, name) {
            return true;
        }
        let Some(commons) = self.given.get(class as usize) else {
            return false;
        };
        let listers = self.listers(name);
        if listers.len() < commons.len() {
            return self.any_given(class, listers);
        }
        self.any_lists(commons, name)
    }
}
