//! The numbers of a policy's names, by the symbols of the names.

ghost use Rattle.std.specs.Prelude.{IfOk, OnOk};
ghost use Rattle.cil_counters.specs.Common.{AreNumbersOf, rc_value};
ghost use Rattle.cil_counters.specs.SymbolRanks.{ArePut, AreRanks};

use cil_resolve::Resolved;
use cil_rules::number;
use cil_symbols::{Numbering, Symbols};
use std::alloc::{AllocError, Allocator};
use std::rc::Rc;

/// Puts the numbers of a policy's first names at the symbols of the names.
fn put_numbers<A: Allocator>(
    numbers: &mut Vec<u32, A>,
    numbering: &Numbering<A>,
    count: usize,
) -> Result<(), AllocError>
    ensures { OnOk result
        (ArePut numbering.now.symbols count numbers.old.items numbers.new.items) }
{
    numbering.len();
    for k in 0..count {
        let place = number(k)?;
        if let Some(symbol) = numbering.symbol(k) {
            if symbol < numbers.len() {
                numbers[symbol] = place;
            }
        }
    }
    Ok(())
}

/// For each symbol the number of its name in a policy; 0 where the policy doesn't have it.
pub fn ranks_of<A: Allocator + Copy>(
    alloc: A,
    symbols: &Symbols<A>,
    numbering: &Numbering<A>,
    policy: &Rc<Resolved<A>, A>,
) -> Result<Vec<u32, A>, AllocError>
    requires { AreNumbersOf symbols.now numbering.now.symbols (rc_value policy.now).names.items }
    ensures { IfOk result (λ numbers.
        AreRanks symbols.now (rc_value policy.now).names.items numbers.items) }
{
    let mut numbers = vec![in alloc; 0; symbols.len()]?;
    put_numbers(&mut numbers, numbering, policy.names_len())?;
    Ok(numbers)
}
