//! The access table.

ghost use Rattle.std.specs.Prelude.{◌≡◌, ◌≤◌, ◌==◌, Bool, List, [], length, map, slice_get, option_map, IfOk, OnErr};
ghost use Rattle.cil_rules.specs.Common.{flat_map, rc_value, AreAtoms, Row, AreRows, row_line, HasFailed, Gains, GainsFront, atom_at, atom_of, AreNumbered};
ghost use Rattle.cil_specs.specs.Rule as spec;

use crate::atom::Atom;
use crate::listing::write_rows;
use crate::name_list::NameList;
use crate::numbers::named;
use crate::rows::Rows;
use cil_accesses::Accesses;
use cil_resolve::Resolved;
use cil_stream::{Sink, SinkFault};
use std::alloc::{AllocError, Allocator, Global};
use std::marker::Model;
use std::rc::Rc;

/// The accesses that the rules of a policy give, each once, in order. Contracts see it as their list.
#[derive(Drop)]
pub struct Table<A: Allocator = Global> {
    pub(super) names: NameList<A>,
    pub(super) accesses: Accesses<A>,
}

impl<A: Allocator> Model for Table<A> {
    ghost use Rattle.std.specs.Prelude.{List, map};
    ghost use Rattle.cil_specs.specs.Rule.{Atom};

    ghost Value = { List Atom };

    ghost use Rattle.cil_rules.specs.Atoms.{atom_at, AreNumbered};

    ghost view = { λ t. map (atom_at t.names) t.accesses };

    ghost invariant = { λ t. AreNumbered t.names t.accesses };
}

impl<A: Allocator + Copy> Table<A> {
    /// A table with no access.
    pub fn empty(alloc: A) -> Self
        ensures { result ≡ [] }
    {
        Table {
            names: NameList::empty(),
            accesses: Accesses::empty(alloc),
        }
    }

    /// The table of these accesses by the numbers of a policy's names, which it shares.
    pub fn numbered(policy: &Rc<Resolved<A>, A>, accesses: Accesses<A>) -> Result<Self, AllocError>
        requires { AreNumbered (rc_value policy.now).names.items accesses }
        ensures { IfOk result (λ table. table ≡ map (atom_at (rc_value policy.now).names.items) accesses) }
    {
        Ok(Table {
            names: NameList::of_policy(policy)?,
            accesses,
        })
    }

    /// The rows of the listing. Those of `neverallow` aren't part of it.
    pub fn rows(&self, alloc: A) -> Result<Rows<A>, AllocError>
        ensures { IfOk result (λ rows. (p : spec.Atom → Bool) → AreAtoms p self.now → AreRows p rows) }
    {
        Rows::of(alloc, self.names.shared()?, &self.accesses)
    }
}

impl<A: Allocator> Table<A> {
    /// How many accesses there are, those of `neverallow` too.
    pub fn len(&self) -> u128
        ensures { result ≡ length self.now }
    {
        self.accesses.len()
    }

    /// Whether there is none.
    pub fn is_empty(&self) -> bool
        ensures { result ≡ (length self.now == 0) }
    {
        self.accesses.get(0).is_none()
    }

    /// The access at a place of the order.
    pub fn get(&self, i: usize) -> Option<Atom<'_>>
        ensures { option_map atom_of result ≡ slice_get self.now i }
    {
        let access = self.accesses.get(i)?;
        Some(named(&access, self.names.as_slice()))
    }

    /// Writes the lines of the rows of the listing, and tells how many there are.
    pub fn write_listing<W: Sink>(&self, sink: &mut W) -> Result<u128, SinkFault>
        ensures ok { IfOk result (λ n. (p : spec.Atom → Bool) → AreAtoms p self.now → (rows : List Row)
            × AreRows p rows × (n ≡ length rows) × Gains (W.taken sink.old) (W.taken sink.new) (flat_map row_line rows)) }
        ensures err { OnErr result ((p : spec.Atom → Bool) → AreAtoms p self.now → (rows : List Row)
            × AreRows p rows × GainsFront (W.taken sink.old) (W.taken sink.new) (flat_map row_line rows)) }
        ensures failed { OnErr result (HasFailed (W.failures sink.old) (W.failures sink.new)) }
        ensures counted { W.failures sink.old ≤ W.failures sink.new }
    {
        write_rows(sink, self.names.as_slice(), &self.accesses)
    }
}
