//! The keys of sources for a rule's kind and permits.

ghost use Rattle.std.specs.Prelude.{[], ◌≡◌, ◌||◌, ◌==◌, true, false, nat_eq, IfOk, OnOk};
ghost use Rattle.std.specs.List.{IsDistinct};
ghost use Rattle.cil_keyed_lines.specs.Keyed.{has_key, is_key};
ghost use Rattle.cil_keyed_lines.specs.declared.symbol_key.SymbolKey.{SymbolKey};
ghost use Rattle.cil_rule_shifts.specs.Groups.{is_among, AreKeysOf, AreSources};
ghost use Rattle.cil_rule_shifts.specs.Permits.{AreInOrder};
ghost use Rattle.cil_rule_shifts.specs.Reach.{is_line};

use crate::head::RuleHead;
use crate::reach::{Sources, next_source, only_source, sources_len};
use cil_keyed_lines::SymbolKey;
use std::alloc::{AllocError, Allocator};

/// Appends the keys of a source of which none is there.
pub fn push_keys<A: Allocator>(
    keys: &mut Vec<SymbolKey, A>,
    source: usize,
    head: RuleHead<'_>,
) -> Result<(), AllocError>
    requires permits { AreInOrder head.permits.now }
    requires distinct { IsDistinct is_key keys.old.items }
    requires new { (k : SymbolKey)
        → has_key keys.old.items k ≡ true → (source == k.source) ≡ false }
    ensures distinct { IsDistinct is_key keys.new.items }
    ensures keys { OnOk result ((k : SymbolKey) → has_key keys.new.items k
        ≡ (has_key keys.old.items k || is_line source head.entry k)) }
{
    for permit in head.permits {
        keys.push(SymbolKey {
            kind: head.kind,
            source,
            class: permit.class,
            permission: permit.permission,
        })?;
    }
    Ok(())
}

/// The keys of one source, in the memory of an empty list.
pub fn keys_of_source<A: Allocator>(
    empty: Vec<SymbolKey, A>,
    source: usize,
    head: RuleHead<'_>,
) -> Result<Vec<SymbolKey, A>, AllocError>
    requires permits { AreInOrder head.permits.now }
    requires empty { empty.items ≡ [] }
    ensures { IfOk result (λ keys. AreKeysOf (nat_eq source) head.entry keys.items) }
{
    let mut keys = empty;
    keys.reserve(head.permits.len())?;
    push_keys(&mut keys, source, head)?;
    Ok(keys)
}

/// The keys of some sources, in the memory of an empty list. Most rules have one source.
pub fn keys_of<A: Allocator + Copy>(
    empty: Vec<SymbolKey, A>,
    sources: Sources<'_, A>,
    head: RuleHead<'_>,
) -> Result<Vec<SymbolKey, A>, AllocError>
    requires permits { AreInOrder head.permits.now }
    requires sources { AreSources sources }
    requires empty { empty.items ≡ [] }
    ensures { IfOk result (λ keys. AreKeysOf (is_among sources.entry) head.entry keys.items) }
{
    if let Some(source) = only_source(sources) {
        return keys_of_source(empty, source, head);
    }
    let count = sources_len(sources).saturating_mul(head.permits.len());
    let mut keys = empty;
    keys.reserve(count)?;
    let mut from = 0;
    while let Some(source) = next_source(sources, from) {
        push_keys(&mut keys, source, head)?;
        from = source + 1;
    }
    Ok(keys)
}
