//! The names of a policy, and their numbers.

ghost use Rattle.std.specs.Prelude.{◌≡◌, ◌<◌, ◌++◌, ◌||◌, ℕ, List, [], fold, map, length, slice_get, slice_index_or, bytes_eq, IsTrue, Some, IfOk, OnOk};
ghost use Rattle.std.specs.List.{AllByRecursion, IsDistinct};
ghost use Rattle.cil_specs.specs.Names.{Word};
ghost use Rattle.cil_specs.specs.Joined.{Placed};
ghost use Rattle.cil_specs.specs.Lookup.{has_name, with_name, texts};
ghost use Rattle.cil_specs.specs.Report.{names_rise};
ghost use Rattle.cil_parse.specs.Builder.{read};
ghost use Rattle.cil_parse.specs.Lexicon.{AreNumbersOf};
ghost use Rattle.cil_parse.specs.Parsed.{texts_of, names_of as module_names};
ghost use Rattle.cil_check.specs.Bound.{IsOf, IsSeen};
ghost use Rattle.cil_bind.specs.Written.{IsOneName};
ghost use Rattle.cil_check.specs.Permissions.{lists_own as is_listing};
ghost use Rattle.cil_resolve.specs.FullNames.{full_name_of, is_numbered_kind, is_numbered as is_numbered_form};
ghost use Rattle.cil_resolve.specs.Naming.{AreNaming, naming as naming_in};
ghost use Rattle.cil_resolve.specs.Numbering.{names_with, number_in, AreNamesOf, HavePlaces, HavePermissions, HavePermissionsOf};

use crate::full_names::{full_names, is_numbered};
use crate::names::{number_of, to_texts};
use crate::text::Text;
use crate::words::{lists_own, text_of};
use cil_check::{BoundPolicy, Seen};
use cil_names::Names;
use cil_parse::{Lists, NumberedWord, StatementKind};
use std::alloc::{AllocError, Allocator, Global};

/// The names of types, attributes, classes, permission sets and permissions in the order of their bytes. For each statement that
/// declares a type, an attribute, a class or a permission set, the number of its full name stands at its place; and for each permission
/// that statements list, its number stands at the number of its word.
#[derive(Drop)]
pub struct Numbering<A: Allocator = Global> {
    pub names: Vec<Text<A>, A>,
    pub places: Vec<u32, A>,
    pub permissions: Vec<u32, A>,
    pub ghost ordered: { IsTrue (names_rise names.items) },
}

impl<A: Allocator + Copy> Numbering<A> {
    /// The names of a policy, whose naming statements stand at these places.
    pub fn of(alloc: A, bound: &BoundPolicy<'_, '_, A>, naming: &[u32]) -> Result<Self, AllocError>
        requires { (policy : List Placed) × IsOf bound.now policy × AreNaming policy naming.now }
        ensures long { IfOk result (λ n. (policy : List Placed) → IsOf bound.now policy
            → length n.places.items ≡ length policy) }
        ensures places { IfOk result (λ n. (policy : List Placed) → IsOf bound.now policy → AreNaming policy naming.now → HavePlaces n.names.items policy n.places.items) }
        ensures permissions { IfOk result (λ n. (policy : List Placed) → IsOf bound.now policy → AreNaming policy naming.now → HavePermissions bound.now.policy.now.names n.names.items policy n.permissions.items) }
    {
        let full_names = full_names(alloc, bound, naming)?;
        let names = sorted_names(alloc, bound, naming, &full_names)?;
        Ok(Numbering {
            names: to_texts(alloc, &names)?,
            places: place_numbers(alloc, bound, naming, &full_names, &names)?,
            permissions: permission_numbers(alloc, bound, naming, &names)?,
        })
    }
}

/// Puts in the names of words of a statement.
fn insert_words<'t, 'm: 't, A: Allocator + Copy>(
    names: &mut Names<'t, A>,
    seen: &Seen<'_, 'm, A>,
    words: &[NumberedWord],
) -> Result<(), AllocError>
    requires { (list : List Word) × (map (read (texts_of seen.now.«module».now)) words.now ≡ map Some list) }
    ensures { OnOk result ((list : List Word) → map (read (texts_of seen.now.«module».now)) words.now ≡ map Some list → names.new ≡ fold with_name names.old (texts list)) }
{
    for word in words {
        names.insert(text_of(seen, *word))?;
    }
    Ok(())
}

/// Puts in the names that a statement brings: its full name, if it declares a type, an attribute, a class or a permission set, and
/// permissions.
fn insert_names<'t, 'm: 't, A: Allocator + Copy>(
    names: &mut Names<'t, A>,
    seen: &Seen<'_, 'm, A>,
    full_name: &'t [u8],
) -> Result<(), AllocError>
    requires { (policy : List Placed) × ((s : Placed) × IsSeen seen.now policy s) }
    ensures { OnOk result ((policy : List Placed) (s : Placed) → IsSeen seen.now policy s → full_name.now ≡ full_name_of s → names.new ≡ fold with_name names.old (names_with s)) }
{
    if is_numbered(seen.view.kind) {
        names.insert(full_name)?;
    }
    if lists_own(seen.view.kind) {
        insert_words(names, seen, seen.view.permissions())?;
    }
    Ok(())
}

/// Whether statements of a kind bring names: that of what they declare, or those of permissions.
fn brings_names(kind: StatementKind) -> bool
    ensures { result ≡ (is_numbered_kind kind || is_listing kind) }
{
    is_numbered(kind) || lists_own(kind)
}

/// Puts in the names that the statement of a place brings. Only a statement of a kind that brings some is looked at whole.
fn insert_names_at<'t, 'm: 't, A: Allocator + Copy>(
    names: &mut Names<'t, A>,
    bound: &BoundPolicy<'_, 'm, A>,
    full_name: &'t [u8],
    i: usize,
) -> Result<(), AllocError>
    requires { (policy : List Placed) × IsOf bound.now policy × (i < length policy) }
    ensures { OnOk result ((policy : List Placed) (s : Placed) → IsOf bound.now policy → slice_get policy i ≡ Some s → full_name.now ≡ full_name_of s → names.new ≡ fold with_name names.old (names_with s)) }
{
    if !brings_names(bound.kind(i)) {
        return Ok(());
    }
    let seen = bound.seen(i);
    insert_names(names, &seen, full_name)
}

/// The full names of types, attributes, classes and permission sets and the names of permissions, in the order of their bytes.
fn sorted_names<'t, 'm: 't, A: Allocator + Copy>(
    alloc: A,
    bound: &BoundPolicy<'_, 'm, A>,
    naming: &[u32],
    full_names: &'t Lists<u8, A>,
) -> Result<Names<'t, A>, AllocError>
    requires is { (policy : List Placed) × IsOf bound.now policy × AreNaming policy naming.now × (full_names.now.0 ≡ map full_name_of (naming_in policy)) }
    ensures ordered { IfOk result (λ names. IsTrue (names_rise names)) }
    ensures names { IfOk result (λ names. (policy : List Placed) → IsOf bound.now policy → AreNaming policy naming.now → full_names.now.0 ≡ map full_name_of (naming_in policy) → AreNamesOf policy names) }
{
    let mut names = Names::new(alloc, bound.joined.seed);
    for k in 0..naming.len() {
        insert_names_at(&mut names, bound, full_names.get(k), naming[k] as usize)?;
    }
    names.sort()?;
    Ok(names)
}

/// The number of the full name of the statement of a place, if it declares a type, an attribute, a class or a permission set; else 0.
fn place_number<A: Allocator>(
    bound: &BoundPolicy<'_, '_, A>,
    full_name: &[u8],
    names: &Names<'_, A>,
    i: usize,
) -> Result<u32, AllocError>
    requires { (policy : List Placed) × (s : Placed) × IsOf bound.now policy × (slice_get policy i ≡ Some s) × (full_name.now ≡ full_name_of s) × AreNamesOf policy names.now }
    ensures { IfOk result (λ n. (policy : List Placed) (s : Placed) → IsOf bound.now policy → slice_get policy i ≡ Some s → full_name.now ≡ full_name_of s
        → IsTrue (is_numbered_form s.form) → number_in names.now (full_name_of s) ≡ Some n) }
{
    if !is_numbered(bound.kind(i)) {
        return Ok(0);
    }
    number_of(names, full_name)
}

/// For each statement that declares a type, an attribute, a class or a permission set, the number of its full name; 0 for others.
fn place_numbers<A: Allocator + Copy>(
    alloc: A,
    bound: &BoundPolicy<'_, '_, A>,
    naming: &[u32],
    full_names: &Lists<u8, A>,
    names: &Names<'_, A>,
) -> Result<Vec<u32, A>, AllocError>
    requires is { (policy : List Placed) × IsOf bound.now policy × AreNaming policy naming.now × (full_names.now.0 ≡ map full_name_of (naming_in policy)) × AreNamesOf policy names.now }
    ensures long { IfOk result (λ places. (policy : List Placed) → IsOf bound.now policy
        → length places.items ≡ length policy) }
    ensures have { IfOk result (λ places. (policy : List Placed)
        → IsOf bound.now policy → AreNaming policy naming.now
        → full_names.now.0 ≡ map full_name_of (naming_in policy)
        → HavePlaces names.now policy places.items) }
{
    let mut places = vec![in alloc; 0; bound.len()]?;
    for k in 0..naming.len() {
        let place = naming[k] as usize;
        let number = place_number(bound, full_names.get(k), names, place)?;
        places[place] = number;
    }
    Ok(places)
}

/// Notes the numbers of permissions at those of their words.
fn note_words<A: Allocator>(
    permissions: &mut Vec<u32, A>,
    names: &Names<'_, A>,
    seen: &Seen<'_, '_, A>,
    words: &[NumberedWord],
) -> Result<(), AllocError>
    requires is { (all : List (List ℕ)) × (list : List Word) × AreNumbersOf all seen.now.words.now (module_names seen.now.«module».now) × (map (read (texts_of seen.now.«module».now)) words.now ≡ map Some list)
        × AllByRecursion IsOneName list × AllByRecursion (λ w. IsTrue (has_name names.now w.text)) list × (length permissions.old.items ≡ length all) }
    ensures long { OnOk result (length permissions.new.items ≡ length permissions.old.items) }
    ensures noted { OnOk result ((all before : List (List ℕ)) (list : List Word) → AreNumbersOf all seen.now.words.now (module_names seen.now.«module».now) → map (read (texts_of seen.now.«module».now)) words.now ≡ map Some list
        → IsDistinct bytes_eq all → AllByRecursion IsOneName list → length permissions.old.items ≡ length all → HavePermissionsOf all names.now before permissions.old.items → HavePermissionsOf all names.now (before ++ texts list) permissions.new.items) }
{
    for word in words {
        let at = seen.number(*word) as usize;
        let number = number_of(names, text_of(seen, *word))?;
        permissions[at] = number;
    }
    Ok(())
}

/// For each word of the policy's numbering its number as a permission, if statements list it as one; 0 for others.
fn permission_numbers<A: Allocator + Copy>(
    alloc: A,
    bound: &BoundPolicy<'_, '_, A>,
    naming: &[u32],
    names: &Names<'_, A>,
) -> Result<Vec<u32, A>, AllocError>
    requires is { (policy : List Placed) × IsOf bound.now policy × AreNaming policy naming.now × AreNamesOf policy names.now }
    ensures { IfOk result (λ permissions. (policy : List Placed) → IsOf bound.now policy → AreNaming policy naming.now → HavePermissions bound.now.policy.now.names names.now policy permissions.items) }
{
    let mut permissions = vec![in alloc; 0; bound.policy.names.len()]?;
    for k in 0..naming.len() {
        let place = naming[k] as usize;
        if lists_own(bound.kind(place)) {
            let seen = bound.seen(place);
            note_words(&mut permissions, names, &seen, seen.view.permissions())?;
        }
    }
    Ok(permissions)
}
