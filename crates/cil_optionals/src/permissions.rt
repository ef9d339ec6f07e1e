//! The permissions of classes, as they are asked.

ghost use Rattle.std.specs.Prelude.{◌≡◌, ◌<◌, ℕ, List, Some, None, true, false, bytes_eq, map, replicate, slice_get, IfOk, IsTrue};
ghost use Rattle.std.specs.List.{list_all};
ghost use Rattle.cil_specs.specs.Names.{Word};
ghost use Rattle.cil_specs.specs.Joined.{Placed};
ghost use Rattle.cil_specs.specs.Lookup.{named_permissions, texts};
ghost use Rattle.cil_bind.specs.KnownLists.{texts_listed, AreKnown};
ghost use Rattle.cil_parse.specs.Builder.{read};
ghost use Rattle.cil_parse.specs.Parsed.{texts_of};
ghost use Rattle.cil_optionals.specs.Asks.{are_there as all_there};
ghost use Rattle.cil_optionals.specs.Given.{permissions_in, names_permissions as names_permissions_kind, has_list as has_listed, AreAnswers, AreRecent, IsInverse};
ghost use Rattle.cil_optionals.specs.Permissions.{HavePermissions};
ghost use Rattle.cil_optionals.specs.Providers.{IsReady};

use crate::listed::{Listed, Permission};
use crate::modules::module_of;
use cil_bind::{Joined, KnownLists, PermissionList, Policy};
use cil_names::Seed;
use cil_parse::{NumberedWord, ParsedModule, StatementKind};
use indexmap::IndexSet;
use std::alloc::{AllocError, Allocator, Global};

/// How many questions are at hand.
const RECENT: usize = 4096;

/// The permissions of classes, and the questions that were answered: no question is gone over twice. Statements ask for the same
/// permissions again and again, so of the questions that were answered with yes some are at hand without a hash, and a list of
/// permissions that a class is known to have is not gone over.
#[derive(Drop)]
pub struct Permissions<'l, 'm, A: Allocator = Global> {
    listed: &'l Listed<'m, A>,
    joined: &'l Joined<'m, A>,
    held: IndexSet<Permission<'m>, Seed, A>,
    lacked: IndexSet<Permission<'m>, Seed, A>,
    recent: Vec<Option<Permission<'m>>, A>,
    known: KnownLists<A>,
    ghost inverse: { IsInverse listed.now },
    ghost held_are: { AreAnswers (permissions_in listed.now) held.keys true },
    ghost lacked_are: { AreAnswers (permissions_in listed.now) lacked.keys false },
    ghost recent_are: { AreRecent (permissions_in listed.now) recent.items },
    ghost known_are: { AreKnown (has_listed joined.now.modules.items (permissions_in listed.now)) known },
}

/// Whether statements of a kind name permissions of a class: rules do, and statements that give some to a permission set. Their class is
/// the last of their references.
fn names_permissions(kind: StatementKind) -> bool
    ensures { result ≡ names_permissions_kind kind }
{
    matches!(
        kind,
        StatementKind::ClassPermissionSet | StatementKind::Rule(_) | StatementKind::RuleToSelf(_)
    )
}

/// Where a question is at hand, by the number of the name's text in its module. Other questions may be there.
fn slot_of(class: u32, text: u32) -> usize {
    (class as usize * 31 + text as usize) % RECENT
}

/// Whether two names are the same. Names are short, and a loop over their bytes takes less than the comparison of slices.
fn is_same(name: &[u8], other: &[u8]) -> bool
    ensures { result ≡ bytes_eq name.now other.now }
{
    if name.len() != other.len() {
        return false;
    }
    for i in 0..name.len() {
        if name[i] != other[i] {
            return false;
        }
    }
    true
}

/// Slots with no question at hand.
pub fn no_questions<'m, A: Allocator + Copy>(
    alloc: A,
) -> Result<Vec<Option<Permission<'m>>, A>, AllocError>
    ensures { IfOk result (λ recent. recent.items ≡ replicate 4096 None) }
{
    let recent = vec![in alloc; None; RECENT]?;
    Ok(recent)
}

impl<'l, 'm, A: Allocator + Copy> Permissions<'l, 'm, A> {
    /// The permissions of classes by what statements list and give, where no question was answered yet.
    pub fn of(
        alloc: A,
        recent: Vec<Option<Permission<'m>>, A>,
        listed: &'l Listed<'m, A>,
        joined: &'l Joined<'m, A>,
    ) -> Self
        requires inverse { IsInverse listed.now }
        requires recent { recent.items ≡ replicate 4096 None }
        ensures listed { result.listed.now ≡ listed.now }
        ensures joined { result.joined.now ≡ joined.now }
    {
        Permissions {
            listed,
            joined,
            held: IndexSet::with_hasher(alloc, joined.seed),
            lacked: IndexSet::with_hasher(alloc, joined.seed),
            recent,
            known: KnownLists::new(alloc),
        }
    }

    /// Whether the question at hand in a slot is this one.
    fn recalls(&self, slot: usize, class: u32, name: &'m [u8]) -> bool
        ensures { IsTrue result → permissions_in self.now.listed.now class name.now ≡ true }
    {
        match self.recent.get(slot) {
            Some(Some(last)) => last.place == class && is_same(last.name, name),
            _ => false,
        }
    }

    /// Puts a question that was answered with yes at hand, in the place of the one in its slot.
    fn note(&mut self, slot: usize, question: Permission<'m>)
        requires { permissions_in self.old.listed.now question.place question.name.now ≡ true }
        ensures listed { self.new.listed ≡ self.old.listed }
        ensures joined { self.new.joined ≡ self.old.joined }
    {
        if let Some(last) = self.recent.get_mut(slot) {
            *last = Some(question);
        }
    }

    /// Whether the class at a place has a permission, whose text has this number in its module.
    fn has(&mut self, class: u32, text: u32, name: &'m [u8]) -> Result<bool, AllocError>
        ensures has { IfOk result (λ has. has ≡ permissions_in self.old.listed.now class name.now) }
        ensures listed { self.new.listed ≡ self.old.listed }
        ensures joined { self.new.joined ≡ self.old.joined }
    {
        let slot = slot_of(class, text);
        if self.recalls(slot, class, name) {
            return Ok(true);
        }
        let has = self.answer(class, name)?;
        if has {
            self.note(slot, Permission { place: class, name });
        }
        Ok(has)
    }

    /// Whether the class at a place has a permission, by the questions that were answered before.
    fn answer(&mut self, class: u32, name: &'m [u8]) -> Result<bool, AllocError>
        ensures has { IfOk result (λ has. has ≡ permissions_in self.old.listed.now class name.now) }
        ensures listed { self.new.listed ≡ self.old.listed }
        ensures joined { self.new.joined ≡ self.old.joined }
    {
        let question = Permission { place: class, name };
        if self.held.contains(&question) {
            return Ok(true);
        }
        if self.lacked.contains(&question) {
            return Ok(false);
        }
        if self.listed.has(class, name) {
            self.held.insert(question)?;
            return Ok(true);
        }
        self.lacked.insert(question)?;
        Ok(false)
    }

    /// Whether the class at a place has all of these permissions.
    fn has_all(
        &mut self,
        class: u32,
        module: &'m ParsedModule<A>,
        words: &[NumberedWord],
    ) -> Result<bool, AllocError>
        requires { (list : List Word) × (map (read (texts_of «module».now)) words.now ≡ map Some list) }
        ensures has { IfOk result (λ has. (list : List Word) → map (read (texts_of «module».now)) words.now ≡ map Some list → has ≡ list_all (λ word. permissions_in self.old.listed.now class word.text) list) }
        ensures listed { self.new.listed ≡ self.old.listed }
        ensures joined { self.new.joined ≡ self.old.joined }
    {
        for word in words {
            if !self.has(class, word.text, module.text(word.text as usize))? {
                return Ok(false);
            }
        }
        Ok(true)
    }

    /// Whether the class at a place has all of these permissions, which are those of a list. It is known to have the list then.
    fn has_list(
        &mut self,
        alloc: A,
        class: u32,
        list: PermissionList,
        module: &'m ParsedModule<A>,
        words: &[NumberedWord],
    ) -> Result<bool, AllocError>
        requires { (l : List Word) × (map (read (texts_of «module».now)) words.now ≡ map Some l) × (texts_listed self.old.joined.now.modules.items list.«module» list.list ≡ texts l) }
        ensures has { IfOk result (λ has. (l : List Word) → map (read (texts_of «module».now)) words.now ≡ map Some l → has ≡ list_all (λ word. permissions_in self.old.listed.now class word.text) l) }
        ensures listed { self.new.listed ≡ self.old.listed }
        ensures joined { self.new.joined ≡ self.old.joined }
    {
        let there = self.has_all(class, module, words)?;
        if there {
            self.known.note(alloc, list, class)?;
        }
        Ok(there)
    }

    /// Whether the class that the statement at a place names has all permissions that it names. A list that it is known to have is not
    /// gone over.
    pub fn are_there(
        &mut self,
        alloc: A,
        policy: &Policy<'m, A>,
        i: usize,
    ) -> Result<bool, AllocError>
        requires { (all : List Placed) × (s : Placed) × IsReady policy.now self.old.joined.now.modules.items all × slice_get all i ≡ Some s }
        ensures there { IfOk result (λ there. (all : List Placed) (s : Placed) → IsReady policy.now self.old.joined.now.modules.items all → HavePermissions all (permissions_in self.old.listed.now) → slice_get all i ≡ Some s
            → there ≡ all_there all s.namespace (named_permissions s.form)) }
        ensures listed { self.new.listed ≡ self.old.listed }
        ensures joined { self.new.joined ≡ self.old.joined }
    {
        let kind = policy.kinds[i];
        if !names_permissions(kind) {
            return Ok(true);
        }
        let Some(class) = policy.references(self.joined, i).last() else {
            return Ok(true);
        };
        let row = policy.rows[i];
        let list = PermissionList::of(self.joined, &row);
        if self.known.knows(list, class) {
            return Ok(true);
        }
        let module = module_of(self.joined, policy, i);
        let view = module.statement(row.index as usize);
        let there = self.has_list(alloc, class, list, module, view.permissions())?;
        Ok(there)
    }
}
