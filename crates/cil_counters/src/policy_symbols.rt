//! What a policy is by symbols.

ghost use Rattle.std.specs.Prelude.{◌≤◌, length, IfOk};
ghost use Rattle.cil_counters.specs.Common.{AreNumbersOf, AreSymbolsOf};

use cil_member_updates::KeptTypes;
use cil_resolve::Resolved;
use cil_symbols::{Numbering, Symbols};
use std::alloc::{AllocError, Allocator, Global};

/// The symbols of a policy's names, and those of the types that it keeps. They are made once for each policy.
#[derive(Drop)]
pub struct PolicySymbols<A: Allocator = Global> {
    pub numbering: Numbering<A>,
    pub kept: KeptTypes<A>,
}

impl<A: Allocator + Copy> PolicySymbols<A> {
    /// Those of a policy whose names have this numbering.
    pub fn of(
        alloc: A,
        names: &Symbols<A>,
        policy: &Resolved<A>,
        numbering: Numbering<A>,
    ) -> Result<Self, AllocError>
        requires numbers { AreNumbersOf names.now numbering.symbols policy.now.names.items }
        requires count { numbering.count ≤ length names.now }
        ensures { IfOk result (AreSymbolsOf names.now policy.now) }
    {
        let kept = KeptTypes::of(alloc, names, policy, &numbering)?;
        Ok(PolicySymbols { numbering, kept })
    }
}
