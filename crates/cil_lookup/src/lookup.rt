//! Where names lead, by numbers.

ghost use Rattle.std.specs.Prelude.{◌≡◌, ◌<◌, ◌∷◌, ℕ, List, [], Some, None, All, length, slice_index_or, IfSome, IfNone, if◌then◌else◌};
ghost use Rattle.cil_lookup.specs.Lookup.{word_at, namespace_at, path_of, table_of, Knows, IsLead, AreWithin};
ghost use Rattle.cil_specs.specs.Names.{components};
ghost use Rattle.cil_specs.specs.Joined.{Placed};
ghost use Rattle.cil_specs.specs.Lookup.{declaration, outward as looked_outward, nearest_block as nearest, inside as looked_inside, from_namespace as looked_from, leads as looked, is_global};

use crate::namespaces::Namespaces;
use cil_parse::Table;
use indexmap::IndexMap;
use std::alloc::{Allocator, Global};
use std::hash::{BuildHasherDefault, FoldHasher};

/// A name in a table and a namespace, by its number and that of the namespace.
#[derive(Clone, Copy, PartialEq, Eq, Hash)]
pub struct Key {
    pub table: Table,
    pub namespace: u32,
    pub word: u32,
}

/// The namespaces of a policy, and for each name the place of the first statement that declares it.
#[derive(Drop)]
pub struct Lookup<A: Allocator = Global> {
    pub namespaces: Namespaces<A>,
    pub declared: IndexMap<Key, u32, BuildHasherDefault<FoldHasher>, A>,
}

impl<A: Allocator> Lookup<A> {
    /// The first statement that declares a name in a table and a namespace, by its place.
    pub fn declaration(&self, table: Table, namespace: u32, word: u32) -> Option<u32>
        requires { namespace < length self.now.namespaces }
        ensures { (names : List (List ℕ)) (policy : List Placed) → Knows self.now.namespaces self.now.declared.entries names policy → word < length names
            → IsLead (table_of table) policy result (declaration policy (table_of table) (namespace_at names self.now.namespaces namespace) (word_at names word)) }
    {
        let key = Key {
            table,
            namespace,
            word,
        };
        self.declared.get(&key).copied()
    }

    /// Where a plain name leads from a namespace outward.
    pub fn outward(&self, table: Table, namespace: u32, word: u32) -> Option<u32>
        requires { namespace < length self.now.namespaces }
        ensures { (names : List (List ℕ)) (policy : List Placed) → Knows self.now.namespaces self.now.declared.entries names policy → word < length names
            → IsLead (table_of table) policy result (looked_outward policy (table_of table) (namespace_at names self.now.namespaces namespace) (word_at names word)) }
    {
        let mut at = namespace;
        loop {
            if let Some(found) = self.declaration(table, at, word) {
                return Some(found);
            }
            at = self.namespaces.outer(at)?;
        }
    }

    /// The namespace that the nearest block of a name outward opens.
    pub fn nearest_block(&self, namespace: u32, word: u32) -> Option<u32>
        requires { namespace < length self.now.namespaces }
        ensures some { IfSome result (λ n. (names : List (List ℕ)) (policy : List Placed) → Knows self.now.namespaces self.now.declared.entries names policy → word < length names
            → nearest policy (namespace_at names self.now.namespaces namespace) (word_at names word) ≡ Some (namespace_at names self.now.namespaces n)) }
        ensures within { IfSome result (λ n. n < length self.now.namespaces) }
        ensures none { IfNone result ((names : List (List ℕ)) (policy : List Placed) → Knows self.now.namespaces self.now.declared.entries names policy → word < length names
            → nearest policy (namespace_at names self.now.namespaces namespace) (word_at names word) ≡ None) }
    {
        let mut at = namespace;
        loop {
            if let Some(found) = self.namespaces.block(at, word) {
                return Some(found);
            }
            at = self.namespaces.outer(at)?;
        }
    }

    /// Where names between dots lead strictly inside a namespace. The path has their numbers in a module, and the words those of
    /// the module's numbers.
    pub fn inside(&self, table: Table, namespace: u32, path: &[u32], words: &[u32]) -> Option<u32>
        requires within { namespace < length self.now.namespaces }
        requires path { All (λ k. k < length words.now) path.now }
        ensures { (names : List (List ℕ)) (policy : List Placed) → Knows self.now.namespaces self.now.declared.entries names policy → AreWithin names words.now
            → IsLead (table_of table) policy result (looked_inside policy (table_of table) (namespace_at names self.now.namespaces namespace) (path_of names words.now path.now)) }
    {
        let mut at = namespace;
        let last = path.len().checked_sub(1)?;
        for i in 0..last {
            at = self.namespaces.block(at, words[path[i] as usize])?;
        }
        self.declaration(table, at, words[path[last] as usize])
    }

    /// Where names between dots lead from a namespace.
    pub fn from_namespace(
        &self,
        table: Table,
        namespace: u32,
        path: &[u32],
        words: &[u32],
    ) -> Option<u32>
        requires within { namespace < length self.now.namespaces }
        requires path { All (λ k. k < length words.now) path.now }
        ensures { (names : List (List ℕ)) (policy : List Placed) → Knows self.now.namespaces self.now.declared.entries names policy → AreWithin names words.now
            → IsLead (table_of table) policy result (looked_from policy (table_of table) (namespace_at names self.now.namespaces namespace) (path_of names words.now path.now)) }
    {
        let (first, rest) = path.split_first()?;
        let word = words[*first as usize];
        if rest.is_empty() {
            return self.outward(table, namespace, word);
        }
        let inner = self.nearest_block(namespace, word)?;
        self.inside(table, inner, rest, words)
    }

    /// Where a reference leads from a namespace: the place of the statement that declares it first. A reference that is global,
    /// with a leading dot, is looked up in the global namespace alone.
    pub fn leads(
        &self,
        table: Table,
        namespace: u32,
        global: bool,
        path: &[u32],
        words: &[u32],
    ) -> Option<u32>
        requires within { namespace < length self.now.namespaces }
        requires path { All (λ k. k < length words.now) path.now }
        ensures { (names : List (List ℕ)) (policy : List Placed) → Knows self.now.namespaces self.now.declared.entries names policy → AreWithin names words.now
            → (text : List ℕ) → is_global text ≡ global → components text ≡ path_of names words.now path.now
            → IsLead (table_of table) policy result (looked policy (table_of table) (namespace_at names self.now.namespaces namespace) text) }
    {
        prove!(self.namespaces.outer(0).is_none());
        if global {
            self.inside(table, 0, path, words)
        } else {
            self.from_namespace(table, namespace, path, words)
        }
    }
}
