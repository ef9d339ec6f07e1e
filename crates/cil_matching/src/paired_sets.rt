//! Set statements that two policies have one behind the other.

ghost use Rattle.std.specs.Prelude.{◌≡◌, ◌<◌, ◌≤◌, ◌+◌, true, length, slice_get, Some, IsTrue};
ghost use Rattle.cil_resolve.specs.Below.{is_set_below};
ghost use Rattle.cil_matching.specs.Common.{IsSameSet, sets_in, numbered_in, AreNumbers, StandAlike};
ghost use Rattle.cil_matching.specs.Paired.{ArePairedSets, AreSameUntil};

use crate::compared::Modules;
use crate::numbers::Numbers;
use crate::same_set::is_same_set;
use cil_resolve::{NumberedSet, Resolved};
use std::alloc::Allocator;

/// The set statement at a place, by the numbers of its names.
#[inline(always)]
pub fn numbered_at<A: Allocator>(resolved: &Resolved<A>, i: usize) -> &NumberedSet<A>
    requires { i < length (sets_in resolved.now) }
    ensures stands { slice_get (numbered_in resolved.now) i ≡ Some result.now }
    ensures within { IsTrue (is_set_below (length resolved.now.names.items) result.now) }
{
    resolved.numbered_set(i).unwrap()
}

/// Whether two set statements stand in two modules, at the same offset, and say the same.
#[inline(always)]
fn is_pair<A: Allocator>(
    numbers: &Numbers<'_>,
    modules: Modules,
    set: &NumberedSet<A>,
    other: &NumberedSet<A>,
) -> bool
    ensures { result ≡ true → ArePairedSets numbers.now modules set.now other.now }
{
    set.module == modules.old
        && other.module == modules.new
        && set.at.offset == other.at.offset
        && is_same_set(numbers, set, other)
}

/// The place in the old policy up to which its set statements behind one are the same as those of the new policy behind one that stands
/// alike. They are looked at as far as they stand in the same module.
#[inline(never)]
pub fn pairs_until<A: Allocator>(
    numbers: &Numbers<'_>,
    old: &Resolved<A>,
    i: usize,
    new: &Resolved<A>,
    j: usize,
) -> usize
    requires within { i < length (sets_in old.now) }
    requires other_within { j < length (sets_in new.now) }
    requires alike { StandAlike old.now new.now i j }
    requires numbers { AreNumbers old.now.names.items new.now.names.items numbers.now }
    ensures behind { i < result }
    ensures few { length (sets_in new.now) ≤ usize.MAX }
    ensures same { AreSameUntil IsSameSet (sets_in old.now) (sets_in new.now)
        (i + 1) (j + 1) result }
{
    let modules = Modules {
        old: numbered_at(old, i).module,
        new: numbered_at(new, j).module,
    };
    let count = new.sets_len();
    let end = old.sets_len();
    let mut to = j + 1;
    for k in i + 1..end {
        if to >= count {
            return k;
        }
        if !is_pair(numbers, modules, numbered_at(old, k), numbered_at(new, to)) {
            return k;
        }
        to += 1;
    }
    end
}
