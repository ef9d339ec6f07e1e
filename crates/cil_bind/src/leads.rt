//! Where what the statements of modules look up leads.

ghost use Rattle.std.specs.Prelude.{◌≡◌, ◌<◌, ◌++◌, ◌∷◌, [], ℕ, List, length, slice_index_or, IfOk, IfSome, OnOk};
ghost use Rattle.cil_bind.specs.Common.{Placed, AreNumbersOf, names_of, texts_of, citations_of, AsKnown, IsLed, Comes, AreWorded, Knows};
ghost use Rattle.cil_bind.specs.Moves.{IsMovedTo, IsMoved, IsFound, AreFound, AreAllFound};

use crate::joined::Joined;
use crate::lead::Lead;
use crate::words::lead;
use cil_lookup::Lookup;
use cil_parse::{Citation, Lists, ParsedModule};
use std::alloc::{AllocError, Allocator, Global};

/// The namespace of an index, and the global one past the end.
fn space_at(spaces: &[u32], n: usize) -> u32
    ensures { result ≡ slice_index_or spaces.now n 0 }
{
    match spaces.get(n) {
        Some(space) => *space,
        None => 0,
    }
}

/// A number of a namespace that is there; the global one for a number that is none's.
fn known<A: Allocator>(lookup: &Lookup<A>, namespace: u32) -> u32
    ensures within { result < length lookup.now.namespaces }
    ensures known { namespace < length lookup.now.namespaces → result ≡ namespace }
{
    let count = lookup.namespaces.len();
    prove!(count > 0);
    if (namespace as usize) < count {
        return namespace;
    }
    0
}

/// Where what a module's statements look up leads from a namespace. The words are the numbers of the module's names. A text that the
/// module hasn't leads nowhere.
fn lead_of<A: Allocator>(
    lookup: &Lookup<A>,
    module: &ParsedModule<A>,
    words: &[u32],
    citation: Citation,
    namespace: u32,
) -> Result<Lead, AllocError>
    requires words { length words.now ≡ length (names_of «module».now) }
    ensures { IfOk result (λ found. AsKnown lookup.now «module».now words.now (λ names policy.
        IsLed names lookup.now.namespaces (texts_of «module».now) policy citation namespace found)) }
{
    if citation.text as usize >= module.text_count() {
        return Ok(Lead::nowhere());
    }
    let from = known(lookup, namespace);
    Lead::of(lead(lookup, module, words, citation.table, from, citation.text))
}

/// What is known of modules when what they look up is looked up: the numbers of their names; the
/// namespaces; where it led, and the new places of the statements, if there was a policy of which some
/// were left out.
#[derive(Drop)]
pub struct Asked<'p, A: Allocator = Global> {
    pub words: &'p [Vec<u32, A>],
    pub spaces: &'p Lists<u32, A>,
    pub led: &'p Lists<Lead, A>,
    pub places: &'p [Lead],
}

/// The same of one module.
#[derive(Drop)]
struct AskedOne<'p> {
    words: &'p [u32],
    spaces: &'p [u32],
    led: &'p [Lead],
    places: &'p [Lead],
}

/// Where what led there leads, if that is nowhere or a statement that stays.
fn moved_to(places: &[Lead], lead: Lead) -> Option<Lead>
    ensures { IfSome result (IsMovedTo places.now lead) }
{
    let Some(place) = lead.place() else {
        return Some(lead);
    };
    let Some(moved) = places.get(place as usize) else {
        return None;
    };
    if moved.place().is_none() {
        return None;
    }
    Some(*moved)
}

/// The same of what is looked up, by its number.
fn moved(places: &[Lead], led: &[Lead], n: usize) -> Option<Lead>
    ensures { IfSome result (IsMoved places.now led.now n) }
{
    let Some(lead) = led.get(n) else {
        return None;
    };
    moved_to(places, *lead)
}

/// Where what a module's statements look up leads, by its number. It is looked up where that isn't
/// known from where it led.
#[inline(always)]
fn found_of<A: Allocator>(
    lookup: &Lookup<A>,
    module: &ParsedModule<A>,
    asked: &AskedOne<'_>,
    n: usize,
    citation: Citation,
) -> Result<Lead, AllocError>
    requires words { length asked.now.words.now ≡ length (names_of «module».now) }
    ensures { IfOk result (λ found. AsKnown lookup.now «module».now asked.now.words.now (λ names policy.
        IsFound names lookup.now.namespaces (texts_of «module».now) policy asked.now.places.now
        asked.now.spaces.now asked.now.led.now n citation found)) }
{
    if let Some(found) = moved(asked.places, asked.led, n) {
        return Ok(found);
    }
    lead_of(
        lookup,
        module,
        asked.words,
        citation,
        space_at(asked.spaces, n),
    )
}

/// Puts where each of what a module's statements look up leads in a list of its own.
fn lead_module<A: Allocator + Copy>(
    lookup: &Lookup<A>,
    module: &ParsedModule<A>,
    asked: &AskedOne<'_>,
    leads: &mut Lists<Lead, A>,
) -> Result<(), AllocError>
    requires words { length asked.now.words.now ≡ length (names_of «module».now) }
    requires closed { leads.old.1 ≡ [] }
    ensures closed { OnOk result (leads.new.1 ≡ []) }
    ensures led { OnOk result (Comes (λ came. AsKnown lookup.now «module».now asked.now.words.now (λ names policy.
        AreFound names lookup.now.namespaces (texts_of «module».now) policy asked.now.places.now
        (citations_of «module».now) asked.now.spaces.now asked.now.led.now came))
        leads.old.0 leads.new.0) }
{
    for (n, citation) in module.citations().iter().enumerate() {
        let found = found_of(lookup, module, asked, n, *citation)?;
        leads.push(found)?;
    }
    leads.close()?;
    Ok(())
}

/// Where what a module looked up led, by the module's number; nothing past the end.
fn led_at<'p, A: Allocator>(led: &'p Lists<Lead, A>, i: usize) -> &'p [Lead]
    ensures { result.now ≡ slice_index_or led.now.0 i [] }
{
    if i < led.len() {
        return led.get(i);
    }
    &[]
}

/// For each module where each of what its statements look up leads.
pub fn leads<A: Allocator + Copy>(
    alloc: A,
    lookup: &Lookup<A>,
    joined: &Joined<'_, A>,
    asked: &Asked<'_, A>,
) -> Result<Lists<Lead, A>, AllocError>
    requires worded { (names : List (List ℕ)) × AreWorded names asked.now.words.now joined.now.modules.items }
    requires spaced { length asked.now.spaces.now.0 ≡ length joined.now.modules.items }
    ensures long { IfOk result (λ leads. length leads.0 ≡ length joined.now.modules.items) }
    ensures led { IfOk result (λ leads. (names : List (List ℕ)) (policy : List Placed)
        → Knows lookup.now.namespaces lookup.now.declared.entries names policy
        → AreWorded names asked.now.words.now joined.now.modules.items
        → AreAllFound names lookup.now.namespaces policy joined.now.modules.items asked.now.places.now
        asked.now.spaces.now.0 asked.now.led.now.0 leads.0) }
{
    let mut leads = Lists::with_capacity(alloc, joined.modules.len(), 0)?;
    let words = asked.words;
    for i in 0..joined.modules.len() {
        let module = joined.modules[i].module;
        let one = AskedOne {
            words: words[i].as_slice(),
            spaces: asked.spaces.get(i),
            led: led_at(asked.led, i),
            places: asked.places,
        };
        lead_module(lookup, module, &one, &mut leads)?;
    }
    Ok(leads)
}
