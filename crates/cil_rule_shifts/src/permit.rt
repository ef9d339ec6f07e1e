//! What a rule permits.

ghost use Rattle.std.specs.Prelude.{◌≡◌, ◌&&◌, ℕ, IfOk};
ghost use Rattle.cil_rule_shifts.specs.Moves.{differs};
ghost use Rattle.cil_rule_shifts.specs.Permits.{has_permit, AreInOrder};

use std::alloc::{AllocError, Allocator};

/// A class and a permission of it, by numbers of their names that stay. They are ordered by these.
#[derive(Clone, Copy, PartialEq, Eq, PartialOrd, Ord)]
pub struct Permit {
    pub class: usize,
    pub permission: usize,
}

/// Puts permits in their order, each once.
pub fn put_in_order<A: Allocator>(permits: &mut Vec<Permit, A>)
    ensures order { AreInOrder permits.new.items }
    ensures same { (c p : ℕ) → has_permit permits.new.items c p ≡ has_permit permits.old.items c p }
{
    permits.sort_unstable();
    permits.dedup();
}

/// Whether a list has a permit.
fn has(permits: &[Permit], permit: Permit) -> bool
    requires { AreInOrder permits.now }
    ensures { result ≡ has_permit permits.now permit.class permit.permission }
{
    permits.binary_search(&permit).is_ok()
}

/// Those of a list that another has too, or all except those.
pub fn those<A: Allocator + Copy>(
    alloc: A,
    permits: &[Permit],
    others: &[Permit],
    except: bool,
) -> Result<Vec<Permit, A>, AllocError>
    requires permits { AreInOrder permits.now }
    requires others { AreInOrder others.now }
    ensures order { IfOk result (λ list. AreInOrder list.items) }
    ensures those { IfOk result (λ list. (c p : ℕ) → has_permit list.items c p
        ≡ (has_permit permits.now c p && differs (has_permit others.now c p) except)) }
{
    let mut list = Vec::new(alloc);
    for permit in permits {
        if has(others, *permit) != except {
            list.push(*permit)?;
        }
    }
    Ok(list)
}
