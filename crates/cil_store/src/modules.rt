//! The modules of a store.

ghost use Rattle.std.specs.Prelude.{◌≡◌, ◌<◌, ◌==◌, [], Option, Some, None, length, slice_get, slice_index_or, option_map, IfOk, OnOk, OnErr, MatchResult};
ghost use Rattle.std.specs.Rc.{rc_value};
ghost use Rattle.cil_store.specs.Common.{Refusal, changed, install_refusal, remove_refusal, state_refusal, store_refusal, name_refusal, priority_refusal, active_text, empty, is_active, edit_of, name_of, priority_of, store_refusal_of, admitted_edit, IsAdmitted, entry_at, IsParsed, entry_of};
ghost use Rattle.cil_store_specs.specs.StoreReport.{is_disabled, state_word};
ghost use Rattle.cil_store.specs.States.{word_of};
ghost use Rattle.cil_store_specs.proofs.ActiveLemmas.{is_first_at};

use crate::admitted::Admitted;
use crate::disabled::Disabled;
use crate::edit::Edit;
use crate::entries::Entries;
use crate::entry::{Entry, SharedModule, StoredEntry};
use crate::refusal::{StoreFault, is_module_name};
use cil_names::Seed;
use cil_resolve::Text;
use std::alloc::{AllocError, Allocator, Global};
use std::marker::Model;

/// The greatest priority, and the greatest length of a text.
const GREATEST_PRIORITY: u32 = 999;

const GREATEST_TEXT: usize = 16_777_216;

/// Whether an entry is compiled (`semodule -lfull`).
#[derive(Clone, Copy, Debug, PartialEq, Eq)]
pub enum State {
    /// It is the one of its name that is compiled.
    Active,
    /// One of a higher priority stands before it.
    Shadowed,
    /// Its name is disabled.
    Disabled,
}

impl State {
    ghost use Rattle.std.specs.Prelude.{◌≡◌};
    ghost use Rattle.cil_store.specs.States.{word_of};

    /// The word of a report.
    pub fn as_bytes(self) -> &'static [u8]
        ensures { result.now ≡ word_of self }
    {
        match self {
            State::Active => b"active",
            State::Shadowed => b"shadowed",
            State::Disabled => b"disabled",
        }
    }
}

/// Modules by their names and priorities, each with its text, which is kept parsed too, and the names that are disabled
/// (`semodule(8)`).
#[derive(Drop)]
pub struct Store<A: Allocator = Global> {
    pub(crate) entries: Entries<A>,
    pub(crate) disabled: Disabled<A>,
    // What the tables of names are hashed by.
    pub(crate) seed: Seed,
}

impl<A: Allocator> Model for Store<A> {
    ghost use Rattle.cil_store_specs.specs.Store.{Store, IsStore};

    ghost Value = { Store };

    ghost view = { λ s. record { entries = s.entries; disabled = s.disabled } };

    ghost invariant = { λ s. IsStore (record { entries = s.entries; disabled = s.disabled }) };
}

impl<A: Allocator> Store<A> {
    /// The entry at a place of the order: by name, and then by falling priority.
    pub fn entry(&self, i: usize) -> Option<Entry<'_>>
        ensures { option_map entry_of result ≡ slice_get self.now.entries i }
    {
        Some(self.entries.as_slice().get(i)?.as_entry())
    }

    /// The entry at a place within the order.
    pub fn at(&self, i: usize) -> Entry<'_>
        requires { i < length self.now.entries }
        ensures { entry_of result ≡ slice_index_or self.now.entries i (entry_at [] 0) }
    {
        self.entries.as_slice()[i].as_entry()
    }

    /// The disabled name at a place of their order.
    pub fn disabled(&self, i: usize) -> Option<&[u8]>
        ensures { option_map (λ name. name.now) result ≡ slice_get self.now.disabled i }
    {
        self.disabled.get(i)
    }

    /// How many names are disabled.
    pub fn disabled_len(&self) -> usize
        ensures { result ≡ length self.now.disabled }
    {
        self.disabled.len()
    }

    /// Whether a name is disabled. In a store that a run from an empty one reaches something of such a name is installed
    /// (`laws::stores_are_within_limits`).
    pub fn is_disabled(&self, name: &[u8]) -> bool
        ensures { result ≡ is_disabled self.now name.now }
    {
        self.disabled.has(name)
    }

    /// How many entries there are.
    pub fn len(&self) -> usize
        ensures { result ≡ length self.now.entries }
    {
        self.entries.len()
    }

    /// Whether there is none.
    pub fn is_empty(&self) -> bool
        ensures { result ≡ (length self.now.entries == 0) }
    {
        self.entries.len() == 0
    }

    /// Whether the entry at a place is active, shadowed or disabled.
    pub fn state(&self, i: usize) -> State
        requires { i < length self.now.entries }
        ensures { word_of result ≡ state_word self.now (slice_index_or self.now.entries i (entry_at [] 0)) }
    {
        let entries = self.entries.as_slice();
        if self.disabled.has(entries[i].name()) {
            State::Disabled
        } else if is_first_at(entries, i) {
            State::Active
        } else {
            State::Shadowed
        }
    }

    /// Whether the entry at a place is compiled.
    pub(crate) fn is_active(&self, i: usize) -> bool
        requires { i < length self.now.entries }
        ensures { result ≡ is_active self.now (slice_index_or self.now.entries i (entry_at [] 0)) }
    {
        let list = self.entries.as_slice();
        if self.disabled.has(list[i].name()) {
            return false;
        }
        is_first_at(list, i)
    }

    /// The text of a name that is compiled, if one is.
    pub fn active(&self, name: &[u8]) -> Option<&[u8]>
        ensures { option_map (λ text. text.now) result ≡ active_text self.now name.now }
    {
        if self.disabled.has(name) {
            return None;
        }
        match self.entries.first_of(name) {
            Some(entry) => Some(entry.text),
            None => None,
        }
    }

    /// Whether the store takes an install of a text of this length, or its first refusal: a bad module name, a bad priority, a
    /// text too long, a store that is full.
    pub fn check_install(&self, name: &[u8], priority: u32, len: usize) -> Result<(), StoreFault>
        ensures { MatchResult result (λ _. install_refusal self.now name.now priority len ≡ None)
            (λ fault. install_refusal self.now name.now priority len
            ≡ Some (store_refusal_of fault name.now priority)) }
    {
        check_words(name, priority)?;
        if len > GREATEST_TEXT {
            return Err(StoreFault::TextTooLong);
        }
        if !self.entries.has_room(name, priority, len) {
            return Err(StoreFault::Full);
        }
        Ok(())
    }

    /// Whether the store takes a removal.
    fn check_remove(&self, name: &[u8], priority: u32) -> Result<(), StoreFault>
        ensures { MatchResult result (λ _. remove_refusal self.now name.now priority ≡ None)
            (λ fault. remove_refusal self.now name.now priority ≡ Some (store_refusal_of fault name.now priority)) }
    {
        check_words(name, priority)?;
        if !self.entries.has(name, priority) {
            return Err(StoreFault::NotInstalled);
        }
        Ok(())
    }

    /// Whether the store takes a change of state.
    fn check_state(&self, name: &[u8]) -> Result<(), StoreFault>
        ensures { MatchResult result (λ _. state_refusal self.now name.now ≡ None)
            (λ fault. state_refusal self.now name.now ≡ Some (store_refusal_of fault name.now 0)) }
    {
        if !is_module_name(name) {
            return Err(StoreFault::BadModuleName);
        }
        if !self.entries.is_installed(name) {
            return Err(StoreFault::NotInstalled);
        }
        Ok(())
    }

    /// Whether the store takes an edit, or its first refusal. Nothing is asked of a text, nor of the policy.
    pub fn check(&self, edit: Edit<'_>) -> Result<(), StoreFault>
        ensures { MatchResult result (λ _. store_refusal self.now (edit_of edit.entry) ≡ None)
            (λ fault. store_refusal self.now (edit_of edit.entry)
            ≡ Some (store_refusal_of fault (name_of edit.entry) (priority_of edit.entry))) }
    {
        match edit {
            Edit::Install {
                name,
                priority,
                text,
            } => self.check_install(name, priority, text.len()),
            Edit::Remove { name, priority } => self.check_remove(name, priority),
            Edit::Enable { name } | Edit::Disable { name } => self.check_state(name),
        }
    }
}

impl<A: Allocator + Copy> Store<A> {
    /// A store without modules, which takes no memory. The tables of the names of its modules are hashed by a seed.
    pub fn new(alloc: A, seed: Seed) -> Self
        ensures { result ≡ empty }
    {
        Store {
            entries: Entries::new(alloc),
            disabled: Disabled::new(alloc),
            seed,
        }
    }

    /// The same store with lists of its own, which shares the entries.
    pub(crate) fn share(&self, alloc: A) -> Result<Self, AllocError>
        ensures { IfOk result (λ store. store ≡ self.now) }
    {
        Ok(Store {
            entries: self.entries.share(alloc)?,
            disabled: self.disabled.copied(alloc)?,
            seed: self.seed,
        })
    }

    /// The parsed module of the entry at a place, under the entry's name.
    pub(crate) fn share_module(&self, alloc: A, i: usize) -> Result<SharedModule<A>, AllocError>
        requires { i < length self.now.entries }
        ensures name { IfOk result (λ m. m.name ≡ (slice_index_or self.now.entries i (entry_at [] 0)).name) }
        ensures parsed { IfOk result (λ m.
            IsParsed (slice_index_or self.now.entries i (entry_at [] 0)).text (rc_value m.«module»)) }
    {
        self.entries.as_slice()[i].share_module(alloc)
    }

    /// Makes an edit that was admitted. An out of memory leaves the store as it was.
    pub(crate) fn make(&mut self, alloc: A, edit: Admitted<'_, A>) -> Result<(), AllocError>
        requires { IsAdmitted edit }
        ensures ok { OnOk result (self.new ≡ changed self.old (admitted_edit edit.entry)) }
        ensures err { OnErr result (self.new ≡ self.old) }
    {
        match edit {
            Admitted::Install { entry, module } => {
                let entry = StoredEntry::of(alloc, entry, module)?;
                self.entries.put(entry)
            }
            Admitted::Remove { name, priority } => {
                self.entries.remove(name, priority);
                if !self.entries.is_installed(name) {
                    self.disabled.remove(name);
                }
                Ok(())
            }
            Admitted::Enable { name } => {
                self.disabled.remove(name);
                Ok(())
            }
            Admitted::Disable { name } => {
                let name = Text::of(alloc, name)?;
                self.disabled.insert(name)
            }
        }
    }
}

/// Whether a name and a priority are those of an entry.
fn check_words(name: &[u8], priority: u32) -> Result<(), StoreFault>
    ensures { (rest : Option Refusal) → MatchResult result
        (λ _. name_refusal name.now (priority_refusal priority rest) ≡ rest)
        (λ fault. name_refusal name.now (priority_refusal priority rest)
        ≡ Some (store_refusal_of fault name.now priority)) }
{
    if !is_module_name(name) {
        return Err(StoreFault::BadModuleName);
    }
    if priority == 0 || priority > GREATEST_PRIORITY {
        return Err(StoreFault::BadPriority);
    }
    Ok(())
}

/// Whether the entry at a place is the first of its name, so that no other has a higher priority.
fn is_first_at<A: Allocator>(entries: &[StoredEntry<A>], i: usize) -> bool
    requires { i < length entries.now }
    ensures { result ≡ is_first_at entries.now i }
{
    i == 0 || !entries[i - 1].is_named(entries[i].name())
}
