//! The entries of a store.

ghost use Rattle.std.specs.Prelude.{◌≡◌, IfOk, bytes_eq, length};
ghost use Rattle.std.specs.Rc.{rc_value};
ghost use Rattle.cil_store.specs.Common.{is_lt, IsParsed, entry_cmp, is_entry, entry_at};

use crate::edit::Edit;
use cil_parse::ParsedModule;
use cil_resolve::{NamedModule, Text};
use std::alloc::{AllocError, Allocator, Global};
use std::marker::Model;
use std::rc::Rc;

/// A module's text under its name and priority, which it borrows.
#[derive(Clone, Copy, Debug)]
pub struct Entry<'a> {
    pub name: &'a [u8],
    pub priority: u32,
    pub text: &'a [u8],
}

impl<'a> Entry<'a> {
    ghost use Rattle.cil_store_specs.specs.Next.{install_of};
    ghost use Rattle.cil_store.specs.Edits.{edit_of};
    ghost use Rattle.cil_store.specs.Stored.{entry_of};

    /// The edit that installs it.
    pub fn as_install(self) -> Edit<'a>
        ensures { edit_of result ≡ install_of (entry_of self.entry) }
    {
        Edit::Install {
            name: self.name,
            priority: self.priority,
            text: self.text,
        }
    }
}

/// A module's text under its name and priority. The text is its own.
#[derive(Drop)]
pub struct OwnedEntry<'a, A: Allocator = Global> {
    pub name: &'a [u8],
    pub priority: u32,
    pub text: Vec<u8, A>,
}

impl<'a, A: Allocator> OwnedEntry<'a, A> {
    ghost use Rattle.cil_store_specs.specs.Next.{install_of};
    ghost use Rattle.cil_store.specs.Edits.{edit_of};
    ghost use Rattle.cil_store.specs.Stored.{owned_entry};

    /// The edit that installs it.
    pub fn as_install(&self) -> Edit<'_>
        ensures { edit_of result ≡ install_of (owned_entry self.now) }
    {
        Edit::Install {
            name: self.name,
            priority: self.priority,
            text: self.text.as_slice(),
        }
    }
}

/// What an entry keeps beside its parsed module.
#[derive(Drop)]
struct Kept<A: Allocator> {
    name: Text<A>,
    priority: u32,
    text: Text<A>,
}

/// A module's text under its name and priority, with the parsed module of the text. Stores share both.
#[derive(Drop)]
pub struct StoredEntry<A: Allocator = Global> {
    kept: Rc<Kept<A>, A>,
    module: Rc<ParsedModule<A>, A>,
}

impl<A: Allocator> Model for StoredEntry<A> {
    ghost use Rattle.std.specs.Rc.{rc_value};
    ghost use Rattle.cil_store_specs.specs.Store.{Entry};
    ghost use Rattle.cil_parse.specs.Parsed.{IsParsed};
    ghost use Rattle.cil_store.specs.Stored.{kept_entry};

    ghost Value = { Entry };

    ghost view = { λ e. kept_entry (rc_value e.kept) };

    ghost invariant = { λ e. IsParsed (rc_value e.kept).text (rc_value e.«module») };
}

impl<A: Allocator + Copy> StoredEntry<A> {
    ghost use Rattle.cil_store.specs.Stored.{entry_of};

    /// A copy of an entry, with the parsed module of its text.
    pub fn of(alloc: A, entry: Entry<'_>, module: ParsedModule<A>) -> Result<Self, AllocError>
        requires { IsParsed entry.text.now «module» }
        ensures { IfOk result (λ e. e ≡ entry_of entry.entry) }
    {
        let kept = Kept {
            name: Text::of(alloc, entry.name)?,
            priority: entry.priority,
            text: Text::of(alloc, entry.text)?,
        };
        Ok(StoredEntry {
            kept: Rc::new(alloc, kept)?,
            module: Rc::new(alloc, module)?,
        })
    }

    /// The parsed module of its text under its name, which stays where the entry is given up.
    pub fn share_module(&self, alloc: A) -> Result<SharedModule<A>, AllocError>
        ensures name { IfOk result (λ m. m.name ≡ self.now.name) }
        ensures parsed { IfOk result (λ m. IsParsed self.now.text (rc_value m.«module»)) }
    {
        Ok(SharedModule {
            name: Text::of(alloc, self.kept.name.as_slice())?,
            module: self.module.clone()?,
        })
    }
}

impl<A: Allocator> StoredEntry<A> {
    ghost use Rattle.cil_store.specs.Stored.{entry_of};

    /// The same entry, which is shared.
    pub fn share(&self) -> Result<Self, AllocError>
        ensures { IfOk result (λ e. e ≡ self.now) }
    {
        Ok(StoredEntry {
            kept: self.kept.clone()?,
            module: self.module.clone()?,
        })
    }

    /// The entry, borrowed.
    pub fn as_entry(&self) -> Entry<'_>
        ensures { entry_of result ≡ self.now }
    {
        Entry {
            name: self.kept.name.as_slice(),
            priority: self.kept.priority,
            text: self.kept.text.as_slice(),
        }
    }

    pub fn name(&self) -> &[u8]
        ensures { result.now ≡ self.now.name }
    {
        self.kept.name.as_slice()
    }

    pub fn priority(&self) -> u32
        ensures { result ≡ self.now.priority }
    {
        self.kept.priority
    }

    /// How long its text is.
    pub fn len(&self) -> usize
        ensures { result ≡ length self.now.text }
    {
        self.kept.text.as_slice().len()
    }

    /// Whether it stands before an entry of a name and a priority: by its name, or by a higher priority of the same name.
    pub fn is_before(&self, name: &[u8], priority: u32) -> bool
        ensures { result ≡ is_lt (entry_cmp self.now (entry_at name.now priority)) }
    {
        self.name()
            .cmp(name)
            .then(priority.cmp(&self.kept.priority))
            .is_lt()
    }

    /// Whether it is that of a name and a priority.
    pub fn is_at(&self, name: &[u8], priority: u32) -> bool
        ensures { result ≡ is_entry name.now priority self.now }
    {
        self.is_named(name) && self.kept.priority == priority
    }

    pub fn is_named(&self, name: &[u8]) -> bool
        ensures { result ≡ bytes_eq self.now.name name.now }
    {
        self.name() == name
    }
}

/// A parsed module under its name. It is shared with the entries that have it.
#[derive(Drop)]
pub struct SharedModule<A: Allocator = Global> {
    name: Text<A>,
    module: Rc<ParsedModule<A>, A>,
}

impl<A: Allocator> SharedModule<A> {
    /// The same, borrowed.
    pub fn as_named(&self) -> NamedModule<'_, A>
        ensures name { result.name.now ≡ self.now.name }
        ensures module { result.«module».now ≡ rc_value self.now.«module» }
    {
        NamedModule {
            name: self.name.as_slice(),
            module: &self.module,
        }
    }
}
