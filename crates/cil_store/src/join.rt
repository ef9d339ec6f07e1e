//! The parsed modules that a store compiles.

ghost use Rattle.std.specs.Prelude.{List, IfOk};
ghost use Rattle.cil_store.specs.Common.{active, AreParsedOf, AreSharedOf, Entry};

use crate::entry::SharedModule;
use crate::modules::Store;
use cil_resolve::NamedModule;
use std::alloc::{AllocError, Allocator};

/// The parsed modules of the entries that a store compiles, in order. They stay where the store is given up.
pub fn active_modules<A: Allocator + Copy>(
    alloc: A,
    store: &Store<A>,
) -> Result<Vec<SharedModule<A>, A>, AllocError>
    ensures { IfOk result (λ modules. AreSharedOf (active store.now) modules.items) }
{
    let mut modules = Vec::new(alloc);
    for i in 0..store.len() {
        if !store.is_active(i) {
            continue;
        }
        modules.push(store.share_module(alloc, i)?)?;
    }
    Ok(modules)
}

/// The same, borrowed.
pub fn named<'s, A: Allocator + Copy>(
    alloc: A,
    modules: &'s [SharedModule<A>],
) -> Result<Vec<NamedModule<'s, A>, A>, AllocError>
    ensures { IfOk result (λ named. (entries : List Entry) → AreSharedOf entries modules.now
        → AreParsedOf entries named.items) }
{
    let mut named = Vec::with_capacity(alloc, modules.len())?;
    for module in modules {
        named.push(module.as_named())?;
    }
    Ok(named)
}
