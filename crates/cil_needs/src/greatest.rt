//! The greatest set of optionals that has what its members need.

ghost use Rattle.std.specs.Prelude.{◌≡◌, ◌≤◌, ◌<◌, ◌+◌, ℕ, Bool, true, false, length, replicate, slice_index_or, not, IfOk, IfSome, IsTrue};
ghost use Rattle.std.specs.List.{list_all, range_with_len};
ghost use Rattle.cil_needs.specs.Needs.{are_met, has_node, is_met, is_need_below};

use crate::dependents::{dependents, reopen};
use std::alloc::{AllocError, Allocator};

/// An optional or a name, and the nodes of which it needs one, by their numbers: two, one, or none, where nothing meets it.
#[derive(Clone, Copy)]
pub struct Need {
    pub optional: usize,
    pub first: Option<usize>,
    pub second: Option<usize>,
}

/// For each number up to that of the last optional whether it is in the greatest set in which all needs are met: the union of
/// all such sets. 0 stands for no optional and is in it.
pub fn greatest_set<A: Allocator + Copy>(
    alloc: A,
    count: usize,
    needs: &[Need],
) -> Result<Vec<bool, A>, AllocError>
    requires below { IsTrue (list_all (is_need_below (count + 1)) needs.now) }
    ensures len { IfOk result (λ kept. length kept.items ≡ count + 1) }
    ensures outside { IfOk result (λ kept. slice_index_or kept.items 0 false ≡ true) }
    ensures met { IfOk result (λ kept. IsTrue (are_met (λ n. slice_index_or kept.items n false) needs.now)) }
    ensures greatest { IfOk result (λ kept. (has : ℕ → Bool) → IsTrue (are_met has needs.now) → (n : ℕ) → n ≤ count → IsTrue (has n) → slice_index_or kept.items n false ≡ true) }
{
    let dependents = dependents(alloc, needs)?;
    let mut kept = all_kept(alloc, count)?;
    let mut open = all_below(alloc, needs.len())?;
    while let Some(i) = open.pop() {
        let need = needs[i];
        if is_unmet(&kept, &need) {
            reopen(&dependents, need.optional, &mut open)?;
            kept[need.optional] = false;
        }
    }
    Ok(kept)
}

/// A mark for each number up to this one: all are kept.
fn all_kept<A: Allocator + Copy>(alloc: A, count: usize) -> Result<Vec<bool, A>, AllocError>
    ensures { IfOk result (λ kept. kept.items ≡ replicate (count + 1) true) }
{
    let Some(len) = count.checked_add(1) else {
        return Err(AllocError);
    };
    let kept = vec![in alloc; true; len]?;
    Ok(kept)
}

/// The numbers below this one.
fn all_below<A: Allocator + Copy>(alloc: A, count: usize) -> Result<Vec<usize, A>, AllocError>
    ensures { IfOk result (λ numbers. numbers.items ≡ range_with_len 0 count) }
{
    (0..count).collect(alloc)
}

/// Whether a node is there and kept.
fn is_kept(kept: &[bool], node: Option<usize>) -> bool
    requires { IfSome node (λ n. n < length kept.now) }
    ensures { result ≡ has_node (λ n. slice_index_or kept.now n false) node }
{
    match node {
        Some(n) => kept[n],
        None => false,
    }
}

/// Whether a need isn't met: its optional is kept, and none of those of which it needs one.
fn is_unmet(kept: &[bool], need: &Need) -> bool
    requires { IsTrue (is_need_below (length kept.now) need.now) }
    ensures { result ≡ not (is_met (λ n. slice_index_or kept.now n false) need.now) }
{
    kept[need.optional] && !is_kept(kept, need.first) && !is_kept(kept, need.second)
}
