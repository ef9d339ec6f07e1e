//! The policy that a store compiles to.

ghost use Rattle.std.specs.Prelude.{◌≡◌, [], IfErr, IfOk};
ghost use Rattle.cil_store.specs.Common.{active, meaning_of, meaning_in, AreSharedOf, IsMeaningOf, IsStore, Store as SpecStore, refusal_of, IsRefusedPolicy};

use crate::entry::SharedModule;
use crate::join::{active_modules, named};
use crate::modules::Store;
use crate::refusal::Refusal;
use crate::refusing::refuse_policy;
use cil_names::Seed;
use cil_resolve::{Resolved, join, resolve};
use std::alloc::{AllocError, Allocator};

/// The policy of the parsed modules that a store compiles, or its first fault. No text is read.
pub fn resolve_modules<A: Allocator + Copy>(
    alloc: A,
    seed: Seed,
    modules: &[SharedModule<A>],
) -> Result<Resolved<A>, Refusal<A>>
    requires { (store : SpecStore) × IsStore store × AreSharedOf (active store) modules.now }
    ensures ok { IfOk result (λ resolved. (store : SpecStore) → IsStore store
        → AreSharedOf (active store) modules.now → IsMeaningOf store (meaning_in resolved)) }
    ensures err { IfErr result (λ refusal. (store : SpecStore) → IsStore store
        → AreSharedOf (active store) modules.now → IsRefusedPolicy store (refusal_of refusal)) }
{
    let borrowed = named(alloc, modules)?;
    let joined = join(borrowed, seed);
    match resolve(alloc, &joined) {
        Ok(resolved) => Ok(resolved),
        Err(fault) => Err(refuse_policy(alloc, fault)),
    }
}

/// The policy of a store, or its first fault. No text is read.
pub fn resolve_store<A: Allocator + Copy>(
    alloc: A,
    store: &Store<A>,
) -> Result<Resolved<A>, Refusal<A>>
    ensures ok { IfOk result (λ resolved. IsMeaningOf store.now (meaning_in resolved)) }
    ensures err { IfErr result (λ refusal. IsRefusedPolicy store.now (refusal_of refusal)) }
{
    let _ = &store.entries;
    let modules = active_modules(alloc, store)?;
    let resolved = resolve_modules(alloc, store.seed, modules.as_slice())?;
    Ok(resolved)
}

/// The policy of no statement, which has no name to hash.
pub fn resolve_nothing<A: Allocator + Copy>(alloc: A) -> Result<Resolved<A>, AllocError>
    ensures { IfOk result (λ resolved. meaning_in resolved ≡ meaning_of [] []) }
{
    let joined = join(Vec::new(alloc), Seed::fixed());
    match resolve(alloc, &joined) {
        Ok(resolved) => Ok(resolved),
        Err(_) => Err(AllocError),
    }
}
