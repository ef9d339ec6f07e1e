//! Names as keys of tables.

ghost use Rattle.std.specs.Prelude.{◌≡◌, ◌∷◌, [], bytes_eq};
ghost use Rattle.std.specs.Cmp.{partial_equiv_from_equiv, on_per, on_equiv};
ghost use Rattle.std.specs.Cmp.Lexicographic.{nat_list_eq_equiv};
ghost use Rattle.std.specs.Cmp.Rules.{hashing};
ghost use Rattle.std.proofs.Common.{rules, ap};
ghost use Rattle.std.proofs.lemmas.Slice.Eq.{bytes_eq-Decides};

use indexmap::Equivalent;
use std::alloc::{Allocator, Global};
use std::hash::{Hash, Hasher};

/// A name that is borrowed. Its bytes are hashed at once.
#[derive(Clone, Copy, PartialEq, Eq, PartialOrd, Ord)]
pub struct Name<'a> {
    pub text: &'a [u8],
}

impl<'a> Hash for Name<'a> {
    ghost hash_input = { λ name. name.text.now ∷ [] };

    ghost respects_eq = { Prim.search (hashing, rules) };

    fn hash<H: Hasher>(&self, state: &mut H) {
        state.write(self.text);
    }
}

/// A name that is owned. It is hashed as one that is borrowed.
#[derive(Drop)]
pub struct OwnedName<A: Allocator = Global> {
    pub text: Vec<u8, A>,
}

impl<A: Allocator> PartialEq for OwnedName<A> {
    ghost eq = { λ name other. bytes_eq name.text.items other.text.items };

    ghost laws = { on_per (λ name. name.text.items) (partial_equiv_from_equiv nat_list_eq_equiv) };

    fn eq(&self, other: &Self) -> bool {
        self.text.as_slice() == other.text.as_slice()
    }
}

impl<A: Allocator> Eq for OwnedName<A> {
    ghost laws = { on_equiv (λ name. name.text.items) nat_list_eq_equiv };
}

impl<A: Allocator> Hash for OwnedName<A> {
    ghost hash_input = { λ name. name.text.items ∷ [] };

    ghost respects_eq = { λ name other same. ap (λ text. text ∷ []) ((bytes_eq-Decides name.text.items other.text.items).0 same) };

    fn hash<H: Hasher>(&self, state: &mut H) {
        state.write(self.text.as_slice());
    }
}

impl<A: Allocator> Equivalent<OwnedName<A>> for Name<'_> {
    ghost equivalent = { λ name other. bytes_eq name.text.now other.text.items };

    ghost respects_hash = { λ name other same. ap (λ text. text ∷ []) ((bytes_eq-Decides name.text.now other.text.items).0 same) };

    ghost respects_eq = { λ name x y. nat_list_eq_equiv.congr name.text.now x.text.items y.text.items };

    fn equivalent(&self, key: &OwnedName<A>) -> bool {
        self.text == key.text.as_slice()
    }
}
