//! Set statements that hold what one of their names does, which are gone along once: those of one
//! name, and those whose expression is a plain list.

ghost use Rattle.std.specs.Prelude.{◌≡◌, ◌||◌, ◌==◌, ◌<◌, ◌/◌, ◌+◌, ℕ, Bool, List, Contains, IfOk, IfSome, IsTrue, length, nat_lt};
ghost use Rattle.cil_parse.specs.Forms.{is_plain};
ghost use Rattle.std.specs.List.{list_any};
ghost use Rattle.cil_specs.specs.Expr.{holds_by, leaves};
ghost use Rattle.cil_specs.specs.Rule as meant;
ghost use Rattle.cil_member_updates.specs.Common.{sets_in, HoldsTypes, MayHold, Reads, IsNameIn, held_by, is_set, name_holds, named_by, set_of};
ghost use Rattle.cil_member_updates.specs.Policy.{counts_at};

use crate::side::Reading;
use crate::when::{When, members};
use cil_member_rows::MemberRows;
use cil_resolve::Element;
use std::alloc::{AllocError, Allocator};

// How many symbols a word has.
const WORD: usize = 64;

// How many names of types a list has at least that is gone along once. One of fewer is evaluated at
// each of these types.
const MANY: usize = 16;

/// Whether the expression of a set statement is a plain list of names.
fn is_plain_list<A: Allocator>(reading: &Reading<'_, A>) -> bool
    requires { reading.now.place < length (sets_in reading.now.side.now.resolved.now) }
    ensures { result ≡ is_plain (set_of reading.now).expr }
{
    let set = reading.side.resolved.numbered_set(reading.place);
    set.unwrap().expression.is_list()
}

/// Whether a set statement has one name and holds what that holds.
fn holds_its_name<A: Allocator>(reading: &Reading<'_, A>) -> bool
    requires { reading.now.place < length (sets_in reading.now.side.now.resolved.now) }
    ensures { IsTrue result → (value : meant.Element → Bool)
        → holds_by value (set_of reading.now).expr
        ≡ list_any value (leaves (set_of reading.now).expr) }
{
    let resolved = reading.side.resolved;
    let names = resolved.set_names(reading.place);
    if names.len() != 1 || resolved.may_hold_any(reading.place) {
        return false;
    }
    let expression = &resolved.numbered_set(reading.place).unwrap().expression;
    expression.holds(
        |_|
            ensures { IsTrue result }
        { true },
    )
}

/// Whether a set statement is told to hold what one of its names does.
fn holds_names<A: Allocator>(reading: &Reading<'_, A>) -> bool
    requires { reading.now.place < length (sets_in reading.now.side.now.resolved.now) }
    ensures { IsTrue result → (value : meant.Element → Bool)
        → holds_by value (set_of reading.now).expr
        ≡ list_any value (leaves (set_of reading.now).expr) }
{
    if holds_its_name(reading) {
        return true;
    }
    is_plain_list(reading)
}

/// Sets the bit of a symbol.
fn add_symbol(words: &mut [u64], symbol: usize)
    requires { symbol / 64 < length words.old }
    ensures long { length words.new ≡ length words.old }
    ensures set { (t : ℕ) → is_set words.new t ≡ (is_set words.old t || (symbol == t)) }
{
    let bits = words[symbol / WORD];
    words[symbol / WORD] = bits | 1 << (symbol % WORD);
}

/// Sets the bits of the members of the attribute of a row.
fn add_members<A: Allocator>(words: &mut [u64], rows: &MemberRows<A>, when: &When, row: usize)
    ensures long { length words.new ≡ length words.old }
    ensures set { (t : ℕ) → t / 64 < length words.old
        → is_set words.new t ≡ (is_set words.old t || nat_lt 0 (counts_at when.now rows.now row t)) }
{
    for word in 0..words.len() {
        words[word] |= members(rows, when, row, word);
    }
}

/// Sets the bits of the types that a name of an expression holds.
fn add_name<A: Allocator>(
    words: &mut [u64],
    reading: &Reading<'_, A>,
    rows: &MemberRows<A>,
    element: Element,
)
    requires reads { Reads reading.now rows.now }
    requires below { IsNameIn reading.now element }
    requires named { Contains (leaves (set_of reading.now).expr) (named_by reading.now element) }
    requires long { length words.old ≡ length reading.now.symbols.now / 64 + 1 }
    ensures long { length words.new ≡ length words.old }
    ensures set { (t : ℕ) → MayHold reading.now t
        → is_set words.new t ≡ (is_set words.old t || name_holds reading.now element t) }
{
    let numbering = reading.side.numbering;
    match element {
        Element::Type(ty) => add_symbol(words, numbering.symbol(ty as usize).unwrap()),
        Element::Attribute(attribute) => add_members(
            words,
            rows,
            &reading.when,
            numbering.symbol(attribute as usize).unwrap(),
        ),
    }
}

/// The types that a set statement holds that holds what one of its names does.
fn listed_types<A: Allocator + Copy>(
    alloc: A,
    reading: &Reading<'_, A>,
    rows: &MemberRows<A>,
) -> Result<Vec<u64, A>, AllocError>
    requires reads { Reads reading.now rows.now }
    requires joins { (value : meant.Element → Bool) → holds_by value (set_of reading.now).expr
        ≡ list_any value (leaves (set_of reading.now).expr) }
    ensures { IfOk result (λ words. HoldsTypes reading.now words.items) }
{
    let names = reading.side.resolved.set_names(reading.place);
    let mut words = vec![in alloc; 0; reading.symbols.len() / WORD + 1]?;
    for k in 0..names.len() {
        add_name(&mut words, reading, rows, names[k]);
    }
    Ok(words)
}

/// Whether some names are few, and all of types.
fn are_few_types(names: &[Element]) -> bool {
    names.len() < MANY && names.iter().all(|name| matches!(name, Element::Type(_)))
}

/// The types that a set statement holds, as bits, 64 a word, where it holds what one of its names
/// does, and these are many, or one is an attribute. The time goes with the names, and for each name
/// of an attribute with the types too. Where it answers none, no contract says.
pub fn plain_list<A: Allocator + Copy>(
    alloc: A,
    reading: &Reading<'_, A>,
    rows: &MemberRows<A>,
) -> Result<Option<Vec<u64, A>>, AllocError>
    requires { Reads reading.now rows.now }
    ensures { IfOk result (λ found. IfSome found (λ words. HoldsTypes reading.now words.items)) }
{
    if are_few_types(reading.side.resolved.set_names(reading.place)) {
        return Ok(None);
    }
    if !holds_names(reading) {
        return Ok(None);
    }
    Ok(Some(listed_types(alloc, reading, rows)?))
}
