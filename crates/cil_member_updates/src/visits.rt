//! Where a set statement may hold a type, word by word.

ghost use Rattle.std.specs.Prelude.{◌<◌, ◌==◌, ℕ, Contains, IfSome, length};
ghost use Rattle.cil_member_updates.specs.Common.{sets_in, IsOutside, IsSide, AreNamesTurned, AreNamesUnchanged, ArePolicies, AreVisits, CoversNames, CoversStayed, HasStayed, IsNameIn, IsNameTurned, IsNameUnchanged, KnowsTypes, Reads, held_by, name_holds, named_by, set_of, Cover, CoverAmong};
ghost use Rattle.cil_specs.specs.Expr.{leaves};

use crate::held::word_of;
use crate::side::{Reading, Stayed};
use crate::when::{When, members};
use cil_member_rows::{MemberRows, Words};
use cil_resolve::{
    Element, expressions_agree, reach_is_a_bound, resolved_is_sound, resolved_names_are_kept,
    resolved_sets_are_in_order,
};
use std::alloc::Allocator;

// How many symbols a word has.
const WORD: usize = 64;

/// The bit of a symbol in its word, and none in any other.
fn symbol_bit(symbol: usize, word: usize) -> u64
    ensures { Cover (λ t. symbol == t) word result }
{
    if symbol / WORD == word {
        1 << (symbol % WORD)
    } else {
        0
    }
}

/// The types of a word that a name of an expression may hold.
fn element_bits<A: Allocator>(
    reading: &Reading<'_, A>,
    rows: &MemberRows<A>,
    element: Element,
    word: usize,
) -> u64
    requires reads { Reads reading.now rows.now }
    requires below { IsNameIn reading.now element }
    requires named { Contains (leaves (set_of reading.now).expr) (named_by reading.now element) }
    ensures { Cover (name_holds reading.now element) word result }
{
    match element {
        Element::Type(ty) => symbol_bit(reading.side.numbering.symbol(ty as usize).unwrap(), word),
        Element::Attribute(attribute) => members(
            rows,
            &reading.when,
            reading.side.numbering.symbol(attribute as usize).unwrap(),
            word,
        ),
    }
}

/// The types of a word that one of the names of a set statement may hold.
fn name_bits<A: Allocator>(reading: &Reading<'_, A>, rows: &MemberRows<A>, word: usize) -> u64
    requires { Reads reading.now rows.now }
    ensures { CoversNames reading.now word result }
{
    let names = reading.side.resolved.set_names(reading.place);
    let mut bits = 0;
    for k in 0..names.len() {
        bits |= element_bits(reading, rows, names[k], word);
    }
    bits
}

/// The types of a word that a set statement may hold, by its expression.
#[inline(always)]
fn reached_by_names<A: Allocator>(
    reading: &Reading<'_, A>,
    rows: &MemberRows<A>,
    word: usize,
) -> u64
    requires { Reads reading.now rows.now }
    ensures { Cover (held_by reading.now) word result }
{
    reach_is_a_bound();
    if reading.side.resolved.may_hold_any(reading.place) {
        reading.side.kept.word(word)
    } else {
        name_bits(reading, rows, word)
    }
}

/// The types of a word that a set statement may hold.
pub fn reached<A: Allocator>(reading: &Reading<'_, A>, rows: &MemberRows<A>, word: usize) -> u64
    requires reads { Reads reading.now rows.now }
    requires known { KnowsTypes reading.now }
    ensures { Cover (held_by reading.now) word result }
{
    match reading.held {
        Some(types) => word_of(types, word),
        None => reached_by_names(reading, rows, word),
    }
}

/// The word of a name of an expression, if it is that of a type.
fn word_of_type<A: Allocator>(reading: &Reading<'_, A>, element: Element) -> Option<Words>
    requires side { IsSide reading.now.symbols.now reading.now.side.now }
    requires below { IsNameIn reading.now element }
    ensures { IfSome result (λ words. (w : ℕ) → IsOutside words w
        → Cover (name_holds reading.now element) w 0) }
{
    match element {
        Element::Type(ty) => {
            let symbol = reading.side.numbering.symbol(ty as usize).unwrap();
            Some(Words::one(symbol / WORD))
        }
        Element::Attribute(_) => None,
    }
}

/// Words outside which no name of a set statement holds a type, if its names are all of types: those
/// of the names, and what stands between them.
fn words_of_types<A: Allocator>(reading: &Reading<'_, A>) -> Option<Words>
    requires side { IsSide reading.now.symbols.now reading.now.side.now }
    requires within { reading.now.place < length (sets_in reading.now.side.now.resolved.now) }
    ensures { IfSome result (λ words. (w : ℕ) → IsOutside words w → CoversNames reading.now w 0) }
{
    let names = reading.side.resolved.set_names(reading.place);
    let mut words = Words::none();
    for k in 0..names.len() {
        words = words.joined(word_of_type(reading, names[k])?);
    }
    Some(words)
}

/// Words outside which a set statement holds no type: where its names are all of types their words
/// and what stands between them, and else the words of all symbols.
pub fn reached_words<A: Allocator>(reading: &Reading<'_, A>) -> Words
    requires side { IsSide reading.now.symbols.now reading.now.side.now }
    requires within { reading.now.place < length (sets_in reading.now.side.now.resolved.now) }
    ensures { (w : ℕ) → IsOutside result w → Cover (held_by reading.now) w 0 }
{
    let all = Words {
        first: 0,
        end: reading.symbols.len() / WORD + 1,
    };
    if reading.side.resolved.may_hold_any(reading.place) {
        return all;
    }
    reach_is_a_bound();
    match words_of_types(reading) {
        Some(words) => words,
        None => all,
    }
}

/// The types of a word that a set statement may hold, told of some types alone. Where the policy keeps
/// none of these, the statement isn't looked at.
fn reached_among<A: Allocator>(
    reading: &Reading<'_, A>,
    rows: &MemberRows<A>,
    word: usize,
    among: u64,
) -> u64
    requires { Reads reading.now rows.now }
    ensures { CoverAmong among (held_by reading.now) word result }
{
    let kept = among & reading.side.kept.word(word);
    if kept == 0 {
        return 0;
    }
    reached_by_names(reading, rows, word)
}

/// The types of a word that became members of the attribute of a name of an expression, or are none
/// any more.
fn changed_by_name<A: Allocator>(
    reading: &Reading<'_, A>,
    rows: &MemberRows<A>,
    element: Element,
    word: usize,
) -> u64
    requires side { IsSide reading.now.symbols.now reading.now.side.now }
    requires below { IsNameIn reading.now element }
    ensures unchanged { IsNameUnchanged reading.now rows.now element word result }
    ensures turned { IsNameTurned reading.now rows.now element word result }
{
    match element {
        Element::Type(_) => 0,
        Element::Attribute(attribute) => {
            let row = reading.side.numbering.symbol(attribute as usize).unwrap();
            rows.changed(row, word)
        }
    }
}

/// The types of a word that became members of an attribute that a set statement mentions, or are
/// none any more.
fn changed_by_names<A: Allocator>(
    reading: &Reading<'_, A>,
    rows: &MemberRows<A>,
    word: usize,
) -> u64
    requires side { IsSide reading.now.symbols.now reading.now.side.now }
    requires within { reading.now.place < length (sets_in reading.now.side.now.resolved.now) }
    ensures unchanged { AreNamesUnchanged reading.now rows.now word result }
    ensures turned { AreNamesTurned reading.now rows.now word result }
{
    let names = reading.side.resolved.set_names(reading.place);
    let mut bits = 0;
    for k in 0..names.len() {
        bits |= changed_by_name(reading, rows, names[k], word);
    }
    bits
}

/// The types of a word that one of two policies keeps alone, or that turned in an attribute that a
/// set statement of both mentions.
fn touched<A: Allocator>(stayed: &Stayed<'_, A>, rows: &MemberRows<A>, word: usize) -> u64
    requires stayed { HasStayed stayed.now rows.now }
    ensures { AreVisits stayed.now word result }
{
    let old = stayed.policies.old;
    let new = stayed.policies.new;
    expressions_agree();
    resolved_is_sound(new.resolved);
    resolved_names_are_kept(new.resolved);
    resolved_sets_are_in_order(new.resolved);
    let is = Reading {
        symbols: stayed.policies.symbols,
        side: new,
        when: When::Now,
        place: stayed.j,
        held: None,
    };
    let changed = changed_by_names(&is, rows, word);
    changed | (old.kept.word(word) ^ new.kept.word(word))
}

/// The types of a word at which a set statement that both policies have may hold in one of them
/// alone: of those that are touched, the types that it may hold in either.
pub fn unsettled<A: Allocator>(stayed: &Stayed<'_, A>, rows: &MemberRows<A>, word: usize) -> u64
    requires stayed { HasStayed stayed.now rows.now }
    ensures { AreVisits stayed.now word result }
{
    let bits = touched(stayed, rows, word);
    if bits == 0 {
        return 0;
    }
    let was = Reading {
        symbols: stayed.policies.symbols,
        side: stayed.policies.old,
        when: When::Before,
        place: stayed.i,
        held: None,
    };
    let is = Reading {
        symbols: stayed.policies.symbols,
        side: stayed.policies.new,
        when: When::Now,
        place: stayed.j,
        held: None,
    };
    let reached_was = reached_among(&was, rows, word, bits);
    let reached_is = reached_among(&is, rows, word, bits);
    bits & (reached_was | reached_is)
}

/// Words outside which the attribute of a name of an expression has the members that it had.
fn words_of_name<A: Allocator>(
    reading: &Reading<'_, A>,
    rows: &MemberRows<A>,
    element: Element,
) -> Words
    requires side { IsSide reading.now.symbols.now reading.now.side.now }
    requires below { IsNameIn reading.now element }
    ensures { (w : ℕ) → IsOutside result w → IsNameUnchanged reading.now rows.now element w 0 }
{
    match element {
        Element::Type(_) => Words::none(),
        Element::Attribute(attribute) => {
            rows.turned_words(reading.side.numbering.symbol(attribute as usize).unwrap())
        }
    }
}

/// Words outside which each attribute that a set statement mentions has the members that it had.
fn words_of_names<A: Allocator>(reading: &Reading<'_, A>, rows: &MemberRows<A>) -> Words
    requires side { IsSide reading.now.symbols.now reading.now.side.now }
    requires within { reading.now.place < length (sets_in reading.now.side.now.resolved.now) }
    ensures { (w : ℕ) → IsOutside result w → AreNamesUnchanged reading.now rows.now w 0 }
{
    let names = reading.side.resolved.set_names(reading.place);
    let mut words = Words::none();
    for k in 0..names.len() {
        words = words.joined(words_of_name(reading, rows, names[k]));
    }
    words
}

/// Words outside which a set statement of both policies holds the same in both: those in which an
/// attribute that it mentions had a step or, where it may hold types that none of its names holds,
/// the policies keep different types; and what stands between them. Both policies keep the types
/// that it names.
pub fn turned_words<A: Allocator>(stayed: &Stayed<'_, A>, rows: &MemberRows<A>) -> Words
    requires policies { ArePolicies stayed.now.policies.now }
    requires stayed { HasStayed stayed.now rows.now }
    ensures { (w : ℕ) → IsOutside result w → CoversStayed stayed.now w 0 }
{
    let new = stayed.policies.new;
    expressions_agree();
    resolved_is_sound(new.resolved);
    resolved_names_are_kept(new.resolved);
    resolved_sets_are_in_order(new.resolved);
    let is = Reading {
        symbols: stayed.policies.symbols,
        side: new,
        when: When::Now,
        place: stayed.j,
        held: None,
    };
    let names = words_of_names(&is, rows);
    if new.resolved.may_hold_any(stayed.j) {
        return stayed.policies.unlike.joined(names);
    }
    let old = stayed.policies.old;
    reach_is_a_bound();
    resolved_is_sound(old.resolved);
    resolved_sets_are_in_order(old.resolved);
    names
}
