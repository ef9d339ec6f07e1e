//! Modules of two policies, compared by their names.

ghost use Rattle.std.specs.Ordering.{nat_cmp, ordering_then};
ghost use Rattle.std.specs.Prelude.{◌≡◌, [], slice_index_or, IfSome};
ghost use Rattle.cil_matching.specs.Compared.{AreCompared};
ghost use Rattle.cil_specs.specs.Report.{name_cmp};

use cil_resolve::Resolved;
use std::alloc::Allocator;
use std::cmp::Ordering;

/// Two modules, by their places in the old and the new policy, and how the name of the second stands to
/// that of the first.
#[derive(Clone, Copy)]
pub struct Compared {
    first: u32,
    second: u32,
    order: Ordering,
}

/// A module of the old policy and one of the new policy, by their places.
#[derive(Clone, Copy)]
pub struct Modules {
    pub old: u32,
    pub new: u32,
}

/// How the name of the new policy's module at a place stands to that of the old one's, by a look at their names. Few are asked for, so it
/// isn't inlined where rules are gone along.
#[inline(never)]
fn compare_names<A: Allocator>(
    old: &Resolved<A>,
    first: u32,
    new: &Resolved<A>,
    second: u32,
) -> Ordering
    ensures { result ≡ name_cmp (slice_index_or new.now.modules.items second [])
        (slice_index_or old.now.modules.items first []) }
{
    new.module(second as usize).cmp(old.module(first as usize))
}

/// How the name of the new policy's module at a place stands to that of the old one's at a place. Where
/// they are those that were compared last, their names aren't read again.
pub fn order_of_modules<A: Allocator>(
    known: &mut Option<Compared>,
    old: &Resolved<A>,
    first: u32,
    new: &Resolved<A>,
    second: u32,
) -> Ordering
    requires { IfSome known.old (AreCompared old.now new.now) }
    ensures known { IfSome known.new (AreCompared old.now new.now) }
    ensures order { result ≡ name_cmp (slice_index_or new.now.modules.items second [])
        (slice_index_or old.now.modules.items first []) }
{
    if let Some(last) = *known {
        if last.first == first && last.second == second {
            return last.order;
        }
    }
    let order = compare_names(old, first, new, second);
    *known = Some(Compared {
        first,
        second,
        order,
    });
    order
}

/// The order by modules, and then by offsets. Mostly both are equal, which is told first.
#[inline(always)]
pub fn then_offsets(modules: Ordering, offset: u32, other: u32) -> Ordering
    ensures { result ≡ ordering_then modules (nat_cmp offset other) }
{
    if modules == Ordering::Equal && offset == other {
        return Ordering::Equal;
    }
    modules.then(offset.cmp(&other))
}
