//! What the nodes of names need.

ghost use Rattle.std.specs.Prelude.{◌≡◌, ◌<◌, ◌+◌, ◌^◌, ℕ, List, false, length, OnOk, IsTrue};
ghost use Rattle.cil_optionals.specs.Common.{Placed, word_at, namespace_at, table_of, Knows, IsLead, NamedModule};
ghost use Rattle.cil_parse.specs.declared.table.Table.TheVariants.{Scopes};
ghost use Rattle.cil_optionals.specs.Providers.{node_of_name, further_out as looked_further, IsReady, AreProviders};

use cil_bind::{Lookup, Policy, declares_name};
use cil_needs::Need;
use cil_parse::Table;
use std::alloc::{AllocError, Allocator};

/// The node of the name that the statement of a place declares, where a policy has so many statements.
fn name_node(count: usize, place: Option<u32>) -> Option<usize>
    requires { count < 2 ^ 32 }
    ensures { result ≡ node_of_name count place }
{
    let place = place?;
    Some(count + 1 + place as usize)
}

/// Where a plain name leads from the namespace around one.
fn further_out<A: Allocator>(
    lookup: &Lookup<A>,
    table: Table,
    namespace: u32,
    word: u32,
) -> Option<u32>
    requires { namespace < length lookup.now.namespaces }
    ensures { (names : List (List ℕ)) (policy : List Placed) → Knows lookup.now.namespaces lookup.now.declared.entries names policy → word < length names
        → IsLead (table_of table) policy result (looked_further policy (table_of table) (namespace_at names lookup.now.namespaces namespace) (word_at names word)) }
{
    let outer = lookup.namespaces.outer(namespace)?;
    lookup.outward(table, outer, word)
}

/// Whether a table is that of blocks and optionals.
fn is_scopes(table: Table) -> bool
    ensures yes { IsTrue result → table ≡ Scopes }
    ensures no { result ≡ false → table ≡ Scopes → ⊥ }
{
    matches!(table, Table::Scopes)
}

/// Puts what the name that a statement declares needs behind others: the optional around the statement, or what the name leads to further
/// out. Outside optionals it needs nothing. Most statements are of kinds that declare no name.
pub fn provide<A: Allocator + Copy>(
    policy: &Policy<'_, A>,
    i: usize,
    needs: &mut Vec<Need, A>,
) -> Result<(), AllocError>
    requires ready { (parsed : List (NamedModule _)) × (all : List Placed) × IsReady policy.now parsed all }
    requires within { i < length policy.now.rows.items }
    ensures { OnOk result ((parsed : List (NamedModule _)) (all : List Placed) → IsReady policy.now parsed all → AreProviders all policy.now.rows.items i needs.old.items
        → AreProviders all policy.now.rows.items (i + 1) needs.new.items) }
{
    if !declares_name(policy.kinds[i]) {
        return Ok(());
    }
    let row = policy.rows[i];
    if row.optional == 0 {
        return Ok(());
    }
    let Some((table, word)) = row.declares else {
        return Ok(());
    };
    if is_scopes(table) {
        return Ok(());
    }
    let next = further_out(&policy.lookup, table, row.namespace, word);
    needs.push(Need {
        optional: policy.rows.len() + 1 + i,
        first: Some(row.optional as usize),
        second: name_node(policy.rows.len(), next),
    })?;
    Ok(())
}
