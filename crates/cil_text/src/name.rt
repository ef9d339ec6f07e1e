//! How names are spelt, and the words that name nothing. Names are narrower than in the CIL
//! Reference Guide ("Declarations"): this is this project's own choice.

ghost use Rattle.std.specs.Prelude.{◌≡◌, ◌==◌, Some, None, if◌then◌else◌};
ghost use Rattle.cil_text.specs.Common.{slice_split, list_all, list_any, without_dot, role_of, kind_option};
ghost use Rattle.cil_specs.specs.Names.{begins_name, is_name_byte, is_name, is_reserved, is_reference, components, is_spelt, name_fault};
ghost use Rattle.cil_specs.specs.TextFault as spec_faults;

use cil_reader::{TextFaultKind, has_one};

/// The most bytes of a name.
const NAME_MAX: usize = 2048;

/// For each byte 1 where it may stand in a name: a letter, a digit, `_` or `-`.
const NAME_BYTES: [u8; 256] = [
    0, 0, 0, 0, 0, 0, 0, 0, 0, 0, 0, 0, 0, 0, 0, 0, 0, 0, 0, 0, 0, 0, 0, 0, 0, 0, 0, 0, 0, 0, 0, 0,
    0, 0, 0, 0, 0, 0, 0, 0, 0, 0, 0, 0, 0, 1, 0, 0, 1, 1, 1, 1, 1, 1, 1, 1, 1, 1, 0, 0, 0, 0, 0, 0,
    0, 1, 1, 1, 1, 1, 1, 1, 1, 1, 1, 1, 1, 1, 1, 1, 1, 1, 1, 1, 1, 1, 1, 1, 1, 1, 1, 0, 0, 0, 0, 1,
    0, 1, 1, 1, 1, 1, 1, 1, 1, 1, 1, 1, 1, 1, 1, 1, 1, 1, 1, 1, 1, 1, 1, 1, 1, 1, 1, 0, 0, 0, 0, 0,
    0, 0, 0, 0, 0, 0, 0, 0, 0, 0, 0, 0, 0, 0, 0, 0, 0, 0, 0, 0, 0, 0, 0, 0, 0, 0, 0, 0, 0, 0, 0, 0,
    0, 0, 0, 0, 0, 0, 0, 0, 0, 0, 0, 0, 0, 0, 0, 0, 0, 0, 0, 0, 0, 0, 0, 0, 0, 0, 0, 0, 0, 0, 0, 0,
    0, 0, 0, 0, 0, 0, 0, 0, 0, 0, 0, 0, 0, 0, 0, 0, 0, 0, 0, 0, 0, 0, 0, 0, 0, 0, 0, 0, 0, 0, 0, 0,
    0, 0, 0, 0, 0, 0, 0, 0, 0, 0, 0, 0, 0, 0, 0, 0, 0, 0, 0, 0, 0, 0, 0, 0, 0, 0, 0, 0, 0, 0, 0, 0,
];

/// What stands in the place of a word.
#[derive(Clone, Copy, PartialEq, Eq)]
pub enum Role {
    /// A name that is declared, or a permission.
    Declared,
    /// A reference to a declared name.
    Referred,
}

fn begins_name(b: u8) -> bool
    ensures { result ≡ begins_name b }
{
    b.is_ascii_alphabetic() || b == b'_'
}

fn is_name_byte(b: u8) -> bool
    ensures { result ≡ is_name_byte b }
{
    has_one(&NAME_BYTES, b)
}

fn are_name_bytes(bytes: &[u8]) -> bool
    ensures { result ≡ list_all is_name_byte bytes.now }
{
    bytes.iter().all(|b| is_name_byte(*b))
}

fn is_name(text: &[u8]) -> bool
    ensures { result ≡ is_name text.now }
{
    match text {
        [] => false,
        [first, rest @ ..] => {
            begins_name(*first) && are_name_bytes(rest) && text.len() <= NAME_MAX
        }
    }
}

/// Whether a name that begins as one of the words that stand for no declared thing is one of them.
#[inline(never)]
fn is_reserved_word(name: &[u8]) -> bool
    ensures { result ≡ is_reserved name.now }
{
    match name {
        [b'a', ..] => name == b"all".as_slice() || name == b"and".as_slice(),
        [b'n', ..] => name == b"not".as_slice() || name == b"notself".as_slice(),
        [b'o', ..] => name == b"or".as_slice() || name == b"other".as_slice(),
        [b's', ..] => name == b"self".as_slice(),
        [b'x', ..] => name == b"xor".as_slice(),
        _ => false,
    }
}

/// Whether it is one of the words that stand for no declared thing. Most names begin as none of them.
#[inline(always)]
fn is_reserved(name: &[u8]) -> bool
    ensures { result ≡ is_reserved name.now }
{
    match name {
        [b'a' | b'n' | b'o' | b's' | b'x', ..] => is_reserved_word(name),
        _ => false,
    }
}

/// The text behind a leading dot, if it has one.
fn without_dot(text: &[u8]) -> &[u8]
    ensures { result.now ≡ without_dot text.now }
{
    match text {
        [b'.', rest @ ..] => rest,
        _ => text,
    }
}

fn is_reference(text: &[u8]) -> bool
    ensures { result ≡ is_reference text.now }
{
    without_dot(text).split(|b| *b == b'.').all(is_name)
}

fn has_reserved(text: &[u8]) -> bool
    ensures { result ≡ list_any is_reserved (components text.now) }
{
    without_dot(text).split(|b| *b == b'.').any(is_reserved)
}

fn is_spelt(role: Role, text: &[u8]) -> bool
    ensures { result ≡ is_spelt (role_of role) text.now }
{
    match role {
        Role::Declared => is_name(text),
        Role::Referred => is_reference(text),
    }
}

fn reserved_fault(reserved: bool) -> Option<TextFaultKind>
    ensures { kind_option result ≡ (if reserved then Some spec_faults.reserved else None) }
{
    reserved.then_some(TextFaultKind::Reserved)
}

// What is wrong with a word that is no single name.
#[inline(never)]
fn dotted_fault(role: Role, text: &[u8]) -> Option<TextFaultKind>
    ensures { kind_option result ≡ name_fault (role_of role) text.now }
{
    if !is_spelt(role, text) {
        Some(TextFaultKind::BadName)
    } else if has_reserved(text) {
        Some(TextFaultKind::Reserved)
    } else {
        None
    }
}

/// What is wrong with a word in such a place: its spelling, or else that it is a reserved word or
/// has one between its dots.
pub fn name_fault(role: Role, text: &[u8]) -> Option<TextFaultKind>
    ensures { kind_option result ≡ name_fault (role_of role) text.now }
{
    // Most words are a single name, which has no dot.
    if is_name(text) {
        reserved_fault(is_reserved(text))
    } else {
        dotted_fault(role, text)
    }
}
