//! The full names of what a policy declares.

ghost use Rattle.std.specs.Prelude.{◌≡◌, ◌<◌, ◌++◌, ◌∷◌, ℕ, List, [], map, take, length, slice_get, slice_index_or, Some, IfOk, OnOk};
ghost use Rattle.cil_resolve.specs.Common.{Word, Placed, named, namespace_at, IsOf, IsSeen, Reads, space_text, numbered_id, is_numbered_kind, full_name_of, AreNaming, naming as naming_in};
ghost use Rattle.cil_bind.specs.Rows.{AreNumbered};
ghost use Rattle.cil_resolve.specs.FullNames.{name_in};

use crate::text::Text;
use crate::words::text_of;
use cil_bind::Policy;
use cil_check::{BoundPolicy, Seen};
use cil_names::counted_in_32_bits;
use cil_parse::{Lists, NumberedWord, StatementKind};
use std::alloc::{AllocError, Allocator};

/// Puts the full name of a name in the namespace of a number behind bytes, by the names of the namespaces.
pub fn add_full_name<A: Allocator + Copy>(
    bytes: &mut Vec<u8, A>,
    spaces: &[Text<A>],
    namespace: u32,
    name: &[u8],
) -> Result<(), AllocError>
    requires { namespace < length spaces.now }
    ensures { OnOk result (bytes.new.items ≡ bytes.old.items ++ name_in spaces.now namespace name.now) }
{
    if namespace != 0 {
        bytes.extend_from_slice(spaces[namespace as usize].as_slice())?;
        bytes.push(b'.')?;
    }
    bytes.extend_from_slice(name)?;
    Ok(())
}

/// The full name of a name in the namespace of a number, by the names of the namespaces.
fn full_name<A: Allocator + Copy>(
    alloc: A,
    spaces: &[Text<A>],
    namespace: u32,
    name: &[u8],
) -> Result<Text<A>, AllocError>
    requires { namespace < length spaces.now }
    ensures { IfOk result (λ t. t ≡ name_in spaces.now namespace name.now) }
{
    let mut bytes = Vec::with_capacity(alloc, name.len())?;
    add_full_name(&mut bytes, spaces, namespace, name)?;
    Ok(Text::from_vec(bytes))
}

/// The name of the namespace of a number, by the names of those in front of it.
fn space_name<A: Allocator + Copy>(
    alloc: A,
    policy: &Policy<'_, A>,
    spaces: &[Text<A>],
    n: u32,
) -> Result<Text<A>, AllocError>
    requires within { n < length policy.now.lookup.namespaces }
    requires numbered { AreNumbered policy.now.names policy.now.lookup.namespaces }
    requires global { slice_index_or policy.now.lookup.namespaces 0 [] ≡ [] }
    requires in_front { spaces.now ≡ map (λ space. space_text (named policy.now.names space)) (take n policy.now.lookup.namespaces) }
    ensures { IfOk result (λ t. t ≡ space_text (namespace_at policy.now.names policy.now.lookup.namespaces n)) }
{
    let Some(block) = policy.lookup.namespaces.opened_by(n) else {
        return Text::of(alloc, b"");
    };
    let word = policy.names.name(block.word as usize).unwrap();
    let name = full_name(alloc, spaces, block.outer, word)?;
    Ok(name)
}

/// The names of the namespaces of a policy, by their numbers. More than 4294967295 are answered as out of memory.
pub fn space_names<A: Allocator + Copy>(
    alloc: A,
    policy: &Policy<'_, A>,
) -> Result<Vec<Text<A>, A>, AllocError>
    requires numbered { AreNumbered policy.now.names policy.now.lookup.namespaces }
    requires global { slice_index_or policy.now.lookup.namespaces 0 [] ≡ [] }
    ensures { IfOk result (λ names. names.items ≡ map (λ space. space_text (named policy.now.names space)) policy.now.lookup.namespaces) }
{
    let count = policy.lookup.namespaces.len();
    counted_in_32_bits(count)?;
    let mut names = Vec::with_capacity(alloc, count)?;
    for n in 0..count {
        let name = space_name(alloc, policy, &names, n as u32)?;
        names.push(name)?;
    }
    Ok(names)
}

/// Whether statements of a kind declare a type, an attribute, a class or a permission set.
pub fn is_numbered(kind: StatementKind) -> bool
    ensures { result ≡ is_numbered_kind kind }
{
    match kind {
        StatementKind::TypeName => true,
        StatementKind::TypeAttribute => true,
        StatementKind::Class => true,
        StatementKind::ClassPermission => true,
        _ => false,
    }
}

/// The name of the type, the attribute, the class or the permission set that a statement declares, without the names of the blocks
/// around.
fn numbered_word<A: Allocator>(seen: &Seen<'_, '_, A>) -> Option<NumberedWord>
    ensures { (policy : List Placed) (s : Placed) → IsSeen seen.now policy s → Reads seen.now result (numbered_id s.form) }
{
    if is_numbered(seen.view.kind) {
        seen.word(0)
    } else {
        None
    }
}

/// Puts a name in the namespace of a number at the end of the open list.
fn add_name<A: Allocator + Copy>(
    names: &mut Lists<u8, A>,
    spaces: &[Text<A>],
    namespace: u32,
    name: &[u8],
) -> Result<(), AllocError>
    requires { namespace < length spaces.now }
    ensures { OnOk result (names.new ≡ (names.old.0, names.old.1 ++ name_in spaces.now namespace name.now)) }
{
    if namespace != 0 {
        names.extend(spaces[namespace as usize].as_slice())?;
        names.push(b'.')?;
    }
    names.extend(name)?;
    Ok(())
}

/// Puts in the full name of the statement of a place, if it declares a type, an attribute, a class or a permission set, and closes its
/// list. Only such a statement is looked at whole.
fn add_statement<A: Allocator + Copy>(
    names: &mut Lists<u8, A>,
    bound: &BoundPolicy<'_, '_, A>,
    spaces: &[Text<A>],
    i: usize,
) -> Result<(), AllocError>
    requires is { (policy : List Placed) × IsOf bound.now policy × (i < length policy) }
    requires spaces { spaces.now ≡ map (λ space. space_text (named bound.now.policy.now.names space)) bound.now.policy.now.lookup.namespaces }
    requires closed { names.old.1 ≡ [] }
    ensures { OnOk result ((policy : List Placed) (s : Placed) → IsOf bound.now policy → slice_get policy i ≡ Some s → names.new ≡ (names.old.0 ++ full_name_of s ∷ [], [])) }
{
    if !is_numbered(bound.kind(i)) {
        names.close()?;
        return Ok(());
    }
    let seen = bound.seen(i);
    if let Some(word) = numbered_word(&seen) {
        let row = bound.policy.rows[i];
        add_name(names, spaces, row.namespace, text_of(&seen, word))?;
    }
    names.close()?;
    Ok(())
}

/// For each of the naming statements of a policy, which stand at these places, the full name of the type, the attribute, the class or the
/// permission set that it declares, and nothing where it declares none.
pub fn full_names<A: Allocator + Copy>(
    alloc: A,
    bound: &BoundPolicy<'_, '_, A>,
    naming: &[u32],
) -> Result<Lists<u8, A>, AllocError>
    requires { (policy : List Placed) × IsOf bound.now policy × AreNaming policy naming.now }
    ensures { IfOk result (λ names. (policy : List Placed) → IsOf bound.now policy → AreNaming policy naming.now → names.0 ≡ map full_name_of (naming_in policy)) }
{
    let spaces = space_names(alloc, bound.policy)?;
    let mut names = Lists::with_capacity(alloc, naming.len(), 0)?;
    for k in 0..naming.len() {
        add_statement(&mut names, bound, &spaces, naming[k] as usize)?;
    }
    Ok(names)
}
