//! What the references of statements in optionals need.

ghost use Rattle.std.specs.Prelude.{◌≡◌, ◌<◌, ◌+◌, ℕ, List, Bool, Some, [], length, slice_get, slice_index_or, IfOk, IfSome, IsTrue, OnOk, Option, if◌then◌else◌};
ghost use Rattle.cil_optionals.specs.Common.{Placed, Optionals, is_within, restricted, IsLead, NamedModule, texts_of, are_found, optional_at, AddsNeed, Asks, IsOf, LeadsOutside, has_node, IsReady};
ghost use Rattle.cil_specs.specs.Lookup.{Table as TableOf, holds_of, references as references_of, is_global as is_global_text};
ghost use Rattle.cil_optionals.specs.Nodes.{is_provided, is_plain as is_plain_text, is_single as are_single, AreNodesOf};

use cil_bind::{Joined, Policy};
use cil_needs::Need;
use cil_parse::ParsedModule;
use std::alloc::{AllocError, Allocator};

/// Whether a text is a plain name, which is looked up outward.
fn is_plain<A: Allocator>(module: &ParsedModule<A>, text: u32) -> bool
    requires { text < length (texts_of «module».now) }
    ensures { result ≡ is_plain_text (slice_index_or (texts_of «module».now) text []) }
{
    if is_global(module.text(text as usize)) {
        return false;
    }
    module.components(text as usize).len() == 1
}

/// Whether a reference has a leading dot.
fn is_global(text: &[u8]) -> bool
    ensures { result ≡ is_global_text text.now }
{
    match text {
        [b, ..] => *b == b'.',
        [] => false,
    }
}

/// The node that meets a reference by what it leads to: for a plain name that of the name, and else that of the optional around the
/// declaration. None meets one that leads nowhere.
fn meeting<A: Allocator>(policy: &Policy<'_, A>, plain: bool, found: Option<u32>) -> Option<usize>
    requires { (parsed : List (NamedModule _)) × (all : List Placed) × (table : TableOf) × (lead : Option Placed) × IsReady policy.now parsed all × IsLead table all found lead }
    ensures below { IfSome result (λ n. n < length policy.now.rows.items + length policy.now.rows.items + 1) }
    ensures meets { (parsed : List (NamedModule _)) (all : List Placed) (table : TableOf) (lead : Option Placed) → IsReady policy.now parsed all → IsLead table all found lead
        → (set : Optionals) (has : ℕ → Bool) → AreNodesOf all set has
        → holds_of (λ s. if plain then is_provided (restricted set all) s else is_within set s) lead ≡ has_node has result }
{
    let Some(place) = found else {
        return None;
    };
    if plain {
        return Some(policy.rows.len() + 1 + place as usize);
    }
    Some(policy.rows[place as usize].optional as usize)
}

/// Whether a reference leads to what stands in no optional, which is there whatever falls away.
fn is_outside<A: Allocator>(policy: &Policy<'_, A>, found: Option<u32>) -> bool
    requires { (parsed : List (NamedModule _)) × (all : List Placed) × (table : TableOf) × (lead : Option Placed) × IsReady policy.now parsed all × IsLead table all found lead }
    ensures { IsTrue result → (parsed : List (NamedModule _)) (all : List Placed) (table : TableOf) (lead : Option Placed) → IsReady policy.now parsed all → IsLead table all found lead → LeadsOutside all lead }
{
    match found {
        Some(place) => policy.rows[place as usize].optional == 0,
        None => false,
    }
}

/// Puts a need of an optional behind others: of one node, or what nothing meets.
pub fn add_need<A: Allocator + Copy>(
    optional: usize,
    node: Option<usize>,
    needs: &mut Vec<Need, A>,
) -> Result<(), AllocError>
    ensures { OnOk result (AddsNeed needs.old.items needs.new.items optional node) }
{
    needs.push(Need {
        optional,
        first: node,
        second: None,
    })?;
    Ok(())
}

/// Puts what the references of the statement at a place need behind others. One that leads outside optionals needs nothing.
pub fn references<'m, A: Allocator + Copy>(
    joined: &Joined<'m, A>,
    policy: &Policy<'m, A>,
    module: &ParsedModule<A>,
    i: usize,
    needs: &mut Vec<Need, A>,
) -> Result<(), AllocError>
    requires ready { (all : List Placed) × (s : Placed) × IsReady policy.now joined.now.modules.items all × slice_get all i ≡ Some s × IsOf policy.now «module».now i s }
    ensures { OnOk result ((all : List Placed) (s : Placed) → IsReady policy.now joined.now.modules.items all → slice_get all i ≡ Some s → IsOf policy.now «module».now i s
        → Asks all (optional_at policy.now i) (λ set. are_found (restricted set all) s.namespace (references_of s.form)) needs.old.items needs.new.items) }
{
    let row = policy.rows[i];
    let bound = policy.references(joined, i);
    for k in 0..bound.len() {
        let found = bound.place(k);
        if is_outside(policy, found) {
            continue;
        }
        let view = module.statement(row.index as usize);
        let Some((_table, word)) = view.reference(k) else {
            continue;
        };
        let plain = is_plain(module, word.text);
        let node = meeting(policy, plain, found);
        add_need(row.optional as usize, node, needs)?;
    }
    Ok(())
}
