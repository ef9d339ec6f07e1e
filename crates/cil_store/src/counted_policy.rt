//! A policy with its counters, changed in place.

ghost use Rattle.std.specs.Prelude.{◌≡◌, [], map, IfErr, IfOk, OnErr, OnOk};
ghost use Rattle.std.specs.Rc.{rc_value};
ghost use Rattle.cil_specs.specs.Meaning.{count_of};
ghost use Rattle.cil_specs.specs.Members.{is_member};
ghost use Rattle.cil_counters.specs.Counted.{IsNow};
ghost use Rattle.cil_rules.specs.Atoms.{atom_of};
ghost use Rattle.cil_store.specs.Common.{is_in_table, meaning_of, AreAtoms, AreViolations, CountsSome, meaning_in, listed, AreTaken, IsMeaningOf, install_of, empty, AreCountedChanges, AreCountersOf, refusal_of, AreRefused, entry_of};

use crate::batch::{installs, judge};
use crate::dropped::Dropped;
use crate::entry::Entry;
use crate::modules::Store;
use crate::refusal::Refusal;
use crate::resolving::resolve_nothing;
use cil_counters::{ChangeCounts, Counters, counters_tell_accesses, counters_tell_members};
use cil_names::Seed;
use cil_resolve::{Meter, Resolved, resolved_sets_are_in_order};
use cil_rules::{Atom, Changes, Table};
use cil_violations::Violations;
use std::alloc::{AllocError, Allocator, Global};
use std::marker::Model;
use std::rc::Rc;

/// A resolved policy that can be shared. Contracts see it as the resolved policy.
#[derive(Drop)]
pub struct SharedPolicy<A: Allocator = Global> {
    resolved: Rc<Resolved<A>, A>,
}

impl<A: Allocator> Model for SharedPolicy<A> {
    ghost use Rattle.std.specs.Coded.{codes};
    ghost use Rattle.std.specs.Rc.{rc_value};
    ghost use Rattle.std.proofs.Props.{props};
    ghost use Rattle.cil_resolve.specs.declared.resolved.Resolved.{Resolved};

    ghost Value = { Resolved A };

    ghost coded = { Prim.hlevel (codes, props) };

    ghost view = { λ p. rc_value p.resolved };
}

impl<A: Allocator + Copy> SharedPolicy<A> {
    /// A resolved policy.
    pub fn of(alloc: A, resolved: Resolved<A>) -> Result<Self, AllocError>
        ensures { IfOk result (λ policy. policy ≡ resolved) }
    {
        Ok(SharedPolicy {
            resolved: Rc::new(alloc, resolved)?,
        })
    }

    /// The same policy, for one more owner. Out of memory stands where no more owners can be
    /// counted.
    pub fn share(&self) -> Result<Self, AllocError>
        ensures { IfOk result (λ policy. policy ≡ self.now) }
    {
        Ok(SharedPolicy {
            resolved: self.resolved.clone()?,
        })
    }

    /// The optionals that drop.
    fn dropped(&self, alloc: A) -> Result<Dropped<A>, AllocError>
        ensures { IfOk result (λ dropped. dropped ≡ (meaning_in self.now).dropped) }
    {
        Dropped::of(alloc, &self.resolved)
    }
}

impl<A: Allocator> SharedPolicy<A> {
    /// The policy.
    pub fn resolved(&self) -> &Resolved<A>
        ensures { result.now ≡ self.now }
    {
        &self.resolved
    }

    /// The policy, for one more owner.
    pub fn shared(&self) -> &Rc<Resolved<A>, A>
        ensures { rc_value result.now ≡ self.now }
    {
        &self.resolved
    }
}

/// A store that nothing is against, with its policy. What memory it needs is taken, but for that
/// of the counters.
#[derive(Drop)]
pub struct Prepared<A: Allocator = Global> {
    pub store: Store<A>,
    pub policy: SharedPolicy<A>,
}

impl<A: Allocator + Copy> Prepared<A> {
    /// The store that entries lead to, each of which is installed in turn in an empty store, whose
    /// tables of names are hashed by a seed. The policy is judged once, at the end.
    pub fn of(alloc: A, seed: Seed, entries: &[Entry<'_>]) -> Result<Self, Refusal<A>>
        ensures taken { IfOk result (λ prepared.
            AreTaken empty (map install_of (map entry_of entries.now)) prepared.store) }
        ensures means { IfOk result (λ prepared.
            IsMeaningOf prepared.store (meaning_in prepared.policy)) }
        ensures err { IfErr result (λ refusal.
            AreRefused empty (map install_of (map entry_of entries.now)) (refusal_of refusal)) }
    {
        let edits = installs(alloc, entries)?;
        let judged = judge(alloc, &Store::new(alloc, seed), &edits)?;
        let policy = SharedPolicy::of(alloc, judged.resolved)?;
        Ok(Prepared {
            store: judged.store,
            policy,
        })
    }
}

/// A policy that was loaded with its counters, and how many accesses it has more than that of no
/// statement.
#[derive(Drop)]
pub struct Loaded<A: Allocator = Global> {
    pub policy: CountedPolicy<A>,
    pub counts: ChangeCounts,
}

/// A resolved policy with its counters: for each attribute and type how many set statements make
/// the one a member of the other, and for each access how many rules give it. Contracts see it as
/// the resolved policy.
#[derive(Drop)]
pub struct CountedPolicy<A: Allocator = Global> {
    policy: SharedPolicy<A>,
    counters: Counters<A>,
}

impl<A: Allocator> Model for CountedPolicy<A> {
    ghost use Rattle.std.specs.Coded.{codes};
    ghost use Rattle.std.proofs.Props.{props};
    ghost use Rattle.cil_resolve.specs.declared.resolved.Resolved.{Resolved};
    ghost use Rattle.cil_store.specs.Counted.{AreCountersOf};

    ghost Value = { Resolved A };

    ghost coded = { Prim.hlevel (codes, props) };

    ghost view = { λ p. p.policy };

    ghost invariant = { λ p. AreCountersOf p.policy p.counters };
}

/// Keeps the steps of counters, and puts the policy to which they lead in place of another.
fn settle<A: Allocator>(
    policy: &mut SharedPolicy<A>,
    counters: &mut Counters<A>,
    next: SharedPolicy<A>,
)
    requires { IsNow next counters.old }
    ensures policy { policy.new ≡ next }
    ensures counters { AreCountersOf policy.new counters.new }
{
    counters.settle();
    *policy = next;
}

impl<A: Allocator + Copy> CountedPolicy<A> {
    /// The policy of no statement. The tables of the names to come are hashed by a seed.
    pub fn empty(alloc: A, seed: Seed) -> Result<Self, AllocError>
        ensures { IfOk result (λ policy. meaning_in policy ≡ meaning_of [] []) }
    {
        let policy = SharedPolicy::of(alloc, resolve_nothing(alloc)?)?;
        let nothing = policy.resolved();
        resolved_sets_are_in_order(nothing);
        let counters = Counters::none(alloc, seed, nothing)?;
        Ok(CountedPolicy { policy, counters })
    }

    /// Counts a policy from nothing, and answers how many changes there are. The counters can't be
    /// led back: an out of memory gives them up.
    pub fn load_counted(
        alloc: A,
        seed: Seed,
        next: SharedPolicy<A>,
        meter: &mut Meter,
    ) -> Result<Loaded<A>, AllocError>
        ensures policy { IfOk result (λ loaded. loaded.policy ≡ next) }
        ensures changes { IfOk result (λ loaded. CountsSome
            (AreCountedChanges (meaning_of [] []) (meaning_in next) meter.old meter.new)
            loaded.counts) }
    {
        let CountedPolicy {
            mut policy,
            mut counters,
        } = CountedPolicy::empty(alloc, seed)?;
        let nothing = policy.resolved();
        resolved_sets_are_in_order(nothing);
        let counts = counters.load_counted(alloc, nothing, next.resolved(), meter)?;
        settle(&mut policy, &mut counters, next);
        Ok(Loaded {
            policy: CountedPolicy { policy, counters },
            counts,
        })
    }

    /// A policy with counters of its own, which are loaded from nothing.
    pub fn load_anew(alloc: A, seed: Seed, next: &SharedPolicy<A>) -> Result<Self, AllocError>
        ensures { IfOk result (λ policy. policy ≡ next.now) }
    {
        let next = next.share()?;
        let CountedPolicy {
            mut policy,
            mut counters,
        } = CountedPolicy::empty(alloc, seed)?;
        let meter = &mut Meter::new();
        counters.load(alloc, policy.resolved(), next.resolved(), meter)?;
        settle(&mut policy, &mut counters, next);
        Ok(CountedPolicy { policy, counters })
    }

    /// Brings the counters to those of another policy, and puts it and its store in place of this
    /// one and its own. An out of memory leaves all as it was but the meter.
    pub fn replace(
        &mut self,
        alloc: A,
        store: &mut Store<A>,
        prepared: Prepared<A>,
        meter: &mut Meter,
    ) -> Result<Changes<A>, AllocError>
        ensures changes { IfOk result (AreCountedChanges
            (meaning_in self.old) (meaning_in prepared.policy) meter.old meter.new) }
        ensures policy { OnOk result (self.new ≡ prepared.policy) }
        ensures store { OnOk result (store.new ≡ prepared.store) }
        ensures err_policy { OnErr result (self.new ≡ self.old) }
        ensures err_store { OnErr result (store.new ≡ store.old) }
    {
        let old = self.policy.shared();
        let new = prepared.policy.shared();
        let updated = self.counters.update(alloc, old, new, meter);
        let Ok(changes) = updated else {
            self.counters.undo();
            return Err(AllocError);
        };
        settle(&mut self.policy, &mut self.counters, prepared.policy);
        *store = prepared.store;
        Ok(changes)
    }

    /// `replace`, which answers how many changes there are.
    pub fn replace_counted(
        &mut self,
        alloc: A,
        store: &mut Store<A>,
        prepared: Prepared<A>,
        meter: &mut Meter,
    ) -> Result<ChangeCounts, AllocError>
        ensures changes { IfOk result (CountsSome (AreCountedChanges
            (meaning_in self.old) (meaning_in prepared.policy) meter.old meter.new)) }
        ensures policy { OnOk result (self.new ≡ prepared.policy) }
        ensures store { OnOk result (store.new ≡ prepared.store) }
        ensures err_policy { OnErr result (self.new ≡ self.old) }
        ensures err_store { OnErr result (store.new ≡ store.old) }
    {
        let old = self.policy.resolved();
        let new = prepared.policy.resolved();
        let updated = self.counters.update_counted(alloc, old, new, meter);
        let Ok(counts) = updated else {
            self.counters.undo();
            return Err(AllocError);
        };
        settle(&mut self.policy, &mut self.counters, prepared.policy);
        *store = prepared.store;
        Ok(counts)
    }

    /// The accesses that its rules give, but for those of neverallow, which a listing doesn't have.
    pub fn table(&self, alloc: A) -> Result<Table<A>, AllocError>
        ensures { IfOk result (λ table.
            AreAtoms (listed (is_in_table (meaning_in self.now))) table) }
    {
        self.counters.table(alloc, self.policy.shared())
    }

    /// The optionals that drop.
    pub fn dropped(&self, alloc: A) -> Result<Dropped<A>, AllocError>
        ensures { IfOk result (λ dropped. dropped ≡ (meaning_in self.now).dropped) }
    {
        self.policy.dropped(alloc)
    }

    /// Its violations.
    pub fn violations(&self, alloc: A) -> Result<Violations<A>, AllocError>
        ensures { IfOk result (AreViolations (meaning_in self.now)) }
    {
        self.counters.violations(alloc, self.policy.shared())
    }
}

impl<A: Allocator> CountedPolicy<A> {
    /// Whether a type is a member of an attribute, by full names. It takes no memory.
    pub fn has(&self, attribute: &[u8], ty: &[u8]) -> bool
        ensures { result ≡ is_member (meaning_in self.now) attribute.now ty.now }
    {
        counters_tell_members(self.policy.resolved(), &self.counters);
        self.counters.has(attribute, ty)
    }

    /// How many of its rules give an access. It takes no memory.
    pub fn count(&self, access: &Atom<'_>) -> u64
        ensures { result ≡ count_of (meaning_in self.now) (atom_of access.now) }
    {
        let policy = self.policy.resolved();
        counters_tell_accesses(policy, &self.counters);
        policy.rules_len();
        self.counters.count(
            access.kind,
            access.source,
            access.target,
            access.class,
            access.permission,
        )
    }
}
