//! Entries that are compiled at once.

ghost use Rattle.std.specs.Prelude.{◌≡◌, ◌≤◌, List, IfErr, IfOk, IsErrOf, OnErr, OnOk, flat_map, length, map};
ghost use Rattle.cil_store.specs.Common.{HasFailed, Gains, GainsFront, is_in_table, AreAtoms, Row, row_line, Violation, AreViolations, violations_text, meaning_in, listed, IsMeaningOf, IsStore, IsTaken, Of, accepts, active, install_of, owned_entry, AreRowsOf, AreSharedOf, AreStopped, AreTaken, AreViolationsOf, Store as SpecStore, empty, refusal_of, AreRefused, IsRefusedEdit};

use crate::batch::take;
use crate::compiled::WriteFault;
use crate::counted_policy::{CountedPolicy, SharedPolicy};
use crate::entry::{OwnedEntry, SharedModule};
use crate::join::active_modules;
use crate::modules::Store;
use crate::refusal::Refusal;
use crate::resolving::{resolve_modules, resolve_nothing};
use cil_counters::violations_at_once;
use cil_names::Seed;
use cil_resolve::resolved_sets_are_in_order;
use cil_rules::Table;
use cil_stream::Sink;
use cil_violations::Violations;
use std::alloc::{AllocError, Allocator, Global};
use std::marker::Model;

/// The policy that a list of entries leads to, without its store. Nothing of it is counted: what is written of it is worked out
/// then, from nothing. Contracts see it as the resolved policy.
#[derive(Drop)]
pub struct Policy<A: Allocator = Global> {
    alloc: A,
    seed: Seed,
    policy: SharedPolicy<A>,
}

impl<A: Allocator> Model for Policy<A> {
    ghost use Rattle.std.specs.Coded.{codes};
    ghost use Rattle.std.proofs.Props.{props};
    ghost use Rattle.cil_resolve.specs.declared.resolved.Resolved.{Resolved};

    ghost Value = { Resolved A };

    ghost coded = { Prim.hlevel (codes, props) };

    ghost view = { λ p. p.policy };
}

/// The accesses that a listing of a policy has, counted from nothing.
fn table_of<A: Allocator + Copy>(
    alloc: A,
    seed: Seed,
    policy: &SharedPolicy<A>,
) -> Result<Table<A>, AllocError>
    ensures { IfOk result (λ table.
        AreAtoms (listed (is_in_table (meaning_in policy.now))) table) }
{
    let counted = CountedPolicy::load_anew(alloc, seed, policy)?;
    counted.table(alloc)
}

/// The violations of a policy. No access is counted.
fn violations_of<A: Allocator + Copy>(
    alloc: A,
    seed: Seed,
    policy: &SharedPolicy<A>,
) -> Result<Violations<A>, AllocError>
    ensures { IfOk result (AreViolations (meaning_in policy.now)) }
{
    let nothing = resolve_nothing(alloc)?;
    resolved_sets_are_in_order(&nothing);
    violations_at_once(alloc, seed, &nothing, policy.shared())
}

/// Installs an entry in a store, and gives up its own text. Nothing is asked of the policy.
fn install<A: Allocator + Copy>(
    alloc: A,
    store: &mut Store<A>,
    entry: OwnedEntry<'_, A>,
) -> Result<(), Refusal<A>>
    ensures ok { OnOk result (IsTaken store.old (install_of (owned_entry entry.entry)) store.new) }
    ensures err { IfErr result (λ refusal.
        IsRefusedEdit store.old (install_of (owned_entry entry.entry)) (refusal_of refusal)) }
{
    take(alloc, store, entry.as_install())
}

/// The store that entries lead to, each of which is installed in turn in an empty store.
fn install_all<A: Allocator + Copy>(
    alloc: A,
    seed: Seed,
    entries: Vec<OwnedEntry<'_, A>, A>,
) -> Result<Store<A>, Refusal<A>>
    ensures ok { IfOk result (λ store.
        AreTaken empty (map install_of (map owned_entry entries.entry.items)) store) }
    ensures err { IfErr result (λ refusal.
        AreStopped empty (map install_of (map owned_entry entries.entry.items)) (refusal_of refusal)) }
{
    let mut store = Store::new(alloc, seed);
    for entry in entries {
        install(alloc, &mut store, entry)?;
    }
    Ok(store)
}

/// The parsed modules of the store that entries lead to. The store and its texts are given up.
fn modules_of<A: Allocator + Copy>(
    alloc: A,
    seed: Seed,
    entries: Vec<OwnedEntry<'_, A>, A>,
) -> Result<Vec<SharedModule<A>, A>, Refusal<A>>
    ensures ok { IfOk result (λ modules. (store : SpecStore) × IsStore store
        × AreTaken empty (map install_of (map owned_entry entries.entry.items)) store
        × AreSharedOf (active store) modules.items) }
    ensures err { IfErr result (λ refusal.
        AreStopped empty (map install_of (map owned_entry entries.entry.items)) (refusal_of refusal)) }
{
    let store = install_all(alloc, seed, entries)?;
    let _ = &store.entries;
    Ok(active_modules(alloc, &store)?)
}

impl<A: Allocator + Copy> Policy<A> {
    /// Compiles a list of entries: each is installed in turn in an empty store, whose tables of names are hashed by a seed, and the
    /// policy is judged once, at the end. The texts are given up before that.
    pub fn of(alloc: A, seed: Seed, entries: Vec<OwnedEntry<'_, A>, A>) -> Result<Self, Refusal<A>>
        ensures ok { IfOk result (λ policy. (store : SpecStore)
            × Of (map owned_entry entries.entry.items) (accepts store)
            × IsMeaningOf store (meaning_in policy)) }
        ensures err { IfErr result (λ refusal.
            AreRefused empty (map install_of (map owned_entry entries.entry.items)) (refusal_of refusal)) }
    {
        let modules = modules_of(alloc, seed, entries)?;
        let resolved = resolve_modules(alloc, seed, modules.as_slice())?;
        let policy = SharedPolicy::of(alloc, resolved)?;
        Ok(Policy {
            alloc,
            seed,
            policy,
        })
    }

    /// Writes the listing, a line for each row, and tells how many there are.
    pub fn write_listing<W: Sink>(&self, sink: &mut W) -> Result<u128, WriteFault>
        ensures ok { (store : SpecStore) → IsMeaningOf store (meaning_in self.now) → IfOk result (λ n.
            (rows : List Row) × AreRowsOf store rows
            × (n ≡ length rows)
            × Gains (W.taken sink.old) (W.taken sink.new) (flat_map row_line rows)) }
        ensures err { (store : SpecStore) → IsMeaningOf store (meaning_in self.now) → OnErr result (
            (rows : List Row) × AreRowsOf store rows
            × GainsFront (W.taken sink.old) (W.taken sink.new) (flat_map row_line rows)) }
        ensures memory { IsErrOf result WriteFault.Memory → W.taken sink.new ≡ W.taken sink.old }
        ensures failed { IsErrOf result WriteFault.Sink → HasFailed (W.failures sink.old) (W.failures sink.new) }
        ensures counted { W.failures sink.old ≤ W.failures sink.new }
    {
        let Ok(table) = table_of(self.alloc, self.seed, &self.policy) else {
            return Err(WriteFault::Memory);
        };
        match table.write_listing(sink) {
            Ok(rows) => Ok(rows),
            Err(_) => Err(WriteFault::Sink),
        }
    }

    /// Writes the violations of neverallow rules, a line for each, and tells how many there are.
    pub fn write_violations<W: Sink>(&self, sink: &mut W) -> Result<usize, WriteFault>
        ensures ok { (store : SpecStore) → IsMeaningOf store (meaning_in self.now) → IfOk result (λ n.
            (violations : List Violation) × AreViolationsOf store violations
            × (n ≡ length violations)
            × Gains (W.taken sink.old) (W.taken sink.new) (violations_text violations)) }
        ensures err { (store : SpecStore) → IsMeaningOf store (meaning_in self.now)
            → IsErrOf result WriteFault.Sink
            → (violations : List Violation) × AreViolationsOf store violations
            × GainsFront (W.taken sink.old) (W.taken sink.new) (violations_text violations) }
        ensures memory { IsErrOf result WriteFault.Memory → W.taken sink.new ≡ W.taken sink.old }
        ensures failed { IsErrOf result WriteFault.Sink → HasFailed (W.failures sink.old) (W.failures sink.new) }
        ensures counted { W.failures sink.old ≤ W.failures sink.new }
    {
        let Ok(violations) = violations_of(self.alloc, self.seed, &self.policy) else {
            return Err(WriteFault::Memory);
        };
        match violations.write(sink) {
            Ok(count) => Ok(count),
            Err(_) => Err(WriteFault::Sink),
        }
    }
}
