//! Batches: edits that are made as one.

ghost use Rattle.std.specs.Prelude.{◌≡◌, false, map, IfErr, IfOk, OnOk};
ghost use Rattle.cil_store.specs.Common.{meaning_in, edit_of, refusal_of, AreRefused, AreStopped, IsRefusedBatch, IsRefusedEdit, entry_of};
ghost use Rattle.cil_store_specs.specs.Next.{AreTaken, IsMeaningOf, IsTaken, install_of, is_too_long as is_too_long_for};

use crate::admitted::admit;
use crate::edit::Edit;
use crate::entry::Entry;
use crate::modules::Store;
use crate::refusal::{Refusal, StoreFault};
use crate::refusing::refuse_edit;
use crate::resolving::resolve_store;
use cil_resolve::Resolved;
use std::alloc::{AllocError, Allocator};

/// The word of the refusal of a batch that is too long.
const WORD: &[u8] = b"batch";

/// The greatest number of edits of a batch.
const GREATEST_EDITS: usize = 8192;

/// The greatest number of bytes that are counted of all texts of a batch.
const GREATEST_BYTES: u64 = 67_108_864;

/// Whether a batch has more than 8192 edits, or texts of which more than 67108864 bytes are counted.
fn is_too_long(edits: &[Edit<'_>]) -> bool
    ensures { result ≡ is_too_long_for (map edit_of edits.now) }
{
    if edits.len() > GREATEST_EDITS {
        return true;
    }
    let mut bytes: u64 = 0;
    for edit in edits {
        bytes += edit.held_bytes() as u64;
    }
    bytes > GREATEST_BYTES
}

/// Takes an edit: makes it where neither the store nor its text is against it. Nothing is asked of the policy.
pub fn take<A: Allocator + Copy>(
    alloc: A,
    store: &mut Store<A>,
    edit: Edit<'_>,
) -> Result<(), Refusal<A>>
    ensures ok { OnOk result (IsTaken store.old (edit_of edit.entry) store.new) }
    ensures err { IfErr result (λ refusal. IsRefusedEdit store.old (edit_of edit.entry) (refusal_of refusal)) }
{
    let admitted = admit(alloc, store, edit)?;
    store.make(alloc, admitted)?;
    Ok(())
}

/// The store after edits that are taken in turn. Nothing is asked of its policy.
pub fn take_all<A: Allocator + Copy>(
    alloc: A,
    store: &Store<A>,
    edits: &[Edit<'_>],
) -> Result<Store<A>, Refusal<A>>
    ensures ok { IfOk result (λ next. AreTaken store.now (map edit_of edits.now) next) }
    ensures err { IfErr result (λ refusal. AreStopped store.now (map edit_of edits.now) (refusal_of refusal)) }
{
    let mut next = store.share(alloc)?;
    for edit in edits {
        take(alloc, &mut next, *edit)?;
    }
    Ok(next)
}

/// A store that edits lead to, and its policy.
#[derive(Drop)]
pub struct Judged<A: Allocator> {
    pub store: Store<A>,
    pub resolved: Resolved<A>,
}

/// The store that edits lead to which are made at once, and its policy, or why they are refused. The store that they are made on stays.
pub fn judge<A: Allocator + Copy>(
    alloc: A,
    store: &Store<A>,
    edits: &[Edit<'_>],
) -> Result<Judged<A>, Refusal<A>>
    ensures taken { IfOk result (λ next. AreTaken store.now (map edit_of edits.now) next.store) }
    ensures means { IfOk result (λ next. IsMeaningOf next.store (meaning_in next.resolved)) }
    ensures err { IfErr result (λ refusal. AreRefused store.now (map edit_of edits.now) (refusal_of refusal)) }
{
    let store = take_all(alloc, store, edits)?;
    let resolved = resolve_store(alloc, &store)?;
    Ok(Judged { store, resolved })
}

/// The store that a batch leads to, and its policy, or why it is refused. The store that it is made on stays.
pub fn judge_batch<A: Allocator + Copy>(
    alloc: A,
    store: &Store<A>,
    edits: &[Edit<'_>],
) -> Result<Judged<A>, Refusal<A>>
    ensures short { OnOk result (is_too_long_for (map edit_of edits.now) ≡ false) }
    ensures taken { IfOk result (λ next. AreTaken store.now (map edit_of edits.now) next.store) }
    ensures means { IfOk result (λ next. IsMeaningOf next.store (meaning_in next.resolved)) }
    ensures err { IfErr result (λ refusal. IsRefusedBatch store.now (map edit_of edits.now) (refusal_of refusal)) }
{
    if is_too_long(edits) {
        return Err(refuse_edit(alloc, StoreFault::BatchTooLong, WORD, 0));
    }
    judge(alloc, store, edits)
}

/// The edits that install entries.
pub fn installs<'e, A: Allocator>(
    alloc: A,
    entries: &[Entry<'e>],
) -> Result<Vec<Edit<'e>, A>, AllocError>
    ensures { IfOk result (λ edits. map edit_of edits.items ≡ map install_of (map entry_of entries.now)) }
{
    let mut edits = Vec::with_capacity(alloc, entries.len())?;
    for entry in entries {
        edits.push(entry.as_install())?;
    }
    Ok(edits)
}
