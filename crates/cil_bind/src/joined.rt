//! The joined policy: several parsed modules by their names.

ghost use Rattle.std.specs.Prelude.{IsTrue, map, bytes_eq};
ghost use Rattle.std.specs.List.{IsDistinct};
ghost use Rattle.std.specs.List.Sorted.{IsPermutation};
ghost use Rattle.cil_specs.specs.Report.{names_rise};

use cil_names::Seed;
use cil_parse::ParsedModule;
use std::alloc::{Allocator, Global};

/// A parsed module under its name.
#[derive(Drop)]
pub struct NamedModule<'m, A: Allocator = Global> {
    pub name: &'m [u8],
    pub module: &'m ParsedModule<A>,
}

/// Parsed modules in the order of their names, each name once, and what tables of their words are hashed by.
#[derive(Drop)]
pub struct Joined<'m, A: Allocator = Global> {
    pub modules: Vec<NamedModule<'m, A>, A>,
    pub seed: Seed,
    pub ghost ordered: { IsTrue (names_rise (map (λ m. m.name.now) modules.items)) },
}

/// Modules of distinct names, in the order of these names by bytes. It takes no memory.
pub fn join<'m, A: Allocator>(modules: Vec<NamedModule<'m, A>, A>, seed: Seed) -> Joined<'m, A>
    requires { IsDistinct (λ m n. bytes_eq m.name.now n.name.now) modules.items }
    ensures { IsPermutation modules.entry.items result.modules.items }
{
    let mut modules = modules;
    modules.sort_unstable_by(|m, n| m.name.cmp(n.name));
    Joined { modules, seed }
}
