//! The optionals that drop, owned.

ghost use Rattle.std.specs.Prelude.{◌≡◌, ◌==◌, [], length, slice_get, option_map, IfOk};
ghost use Rattle.cil_store.specs.Common.{meaning_in};
ghost use Rattle.cil_resolve.specs.Views.{declared_seen};

use cil_resolve::{NameView, Resolved, Text};
use cil_text::Place;
use std::alloc::{AllocError, Allocator, Global};
use std::marker::Model;

/// The full name of an optional, with its module and its place.
#[derive(Debug, Drop)]
pub struct OwnedName<A: Allocator = Global> {
    module: Text<A>,
    at: Place,
    name: Text<A>,
}

impl<A: Allocator> Model for OwnedName<A> {
    ghost use Rattle.cil_specs.specs.Rule.{Declared};
    ghost use Rattle.cil_text.specs.Image.{place_of};

    ghost Value = { Declared };

    ghost view = { λ n. record { module_name = n.module; at = place_of n.at; name = n.name } };
}

impl<A: Allocator + Copy> OwnedName<A> {
    /// A copy of a name.
    fn of(alloc: A, name: NameView<'_>) -> Result<Self, AllocError>
        ensures { IfOk result (λ n. n ≡ declared_seen name.entry) }
    {
        Ok(OwnedName {
            module: Text::of(alloc, name.module)?,
            at: name.at,
            name: Text::of(alloc, name.name)?,
        })
    }
}

impl<A: Allocator> OwnedName<A> {
    fn as_view(&self) -> NameView<'_>
        ensures { declared_seen result ≡ self.now }
    {
        NameView {
            module: self.module.as_slice(),
            at: self.at,
            name: self.name.as_slice(),
        }
    }
}

/// The optionals of a store that drop, those inside others too, in the order of their statements. Contracts see them as their
/// list.
#[derive(Debug, Drop)]
pub struct Dropped<A: Allocator = Global> {
    names: Vec<OwnedName<A>, A>,
}

impl<A: Allocator> Model for Dropped<A> {
    ghost use Rattle.std.specs.Prelude.{List};
    ghost use Rattle.cil_specs.specs.Rule.{Declared};

    ghost Value = { List Declared };

    ghost view = { λ d. d.names.items };
}

impl<A: Allocator + Copy> Dropped<A> {
    /// No optional.
    pub(crate) fn empty(alloc: A) -> Self
        ensures { result ≡ [] }
    {
        Dropped {
            names: Vec::new(alloc),
        }
    }

    /// The optionals of a resolved policy that drop.
    pub(crate) fn of(alloc: A, resolved: &Resolved<A>) -> Result<Self, AllocError>
        ensures { IfOk result (λ dropped. dropped ≡ (meaning_in resolved.now).dropped) }
    {
        let mut names = Vec::with_capacity(alloc, resolved.dropped_len())?;
        let mut i = 0;
        while let Some(name) = resolved.dropped_at(i) {
            names.push(OwnedName::of(alloc, name)?)?;
            i += 1;
        }
        Ok(Dropped { names })
    }
}

impl<A: Allocator> Dropped<A> {
    /// How many there are.
    pub fn len(&self) -> usize
        ensures { result ≡ length self.now }
    {
        self.names.len()
    }

    /// Whether there is none.
    pub fn is_empty(&self) -> bool
        ensures { result ≡ (length self.now == 0) }
    {
        self.names.is_empty()
    }

    /// The optional at a place of the order.
    pub fn get(&self, i: usize) -> Option<NameView<'_>>
        ensures { option_map declared_seen result ≡ slice_get self.now i }
    {
        Some(self.names.get(i)?.as_view())
    }
}
