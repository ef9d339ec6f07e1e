//! The numbering of a policy among symbols that others have.

use crate::policies::policy;
use cil_names::Seed;
use cil_symbols::{Numbering, Symbols};
use std::alloc::Global;
use std::process::Abort;

// Texts of policies that come one after the other; the symbols of each one's names, in the order of their numbers; and its number of each
// of the first five symbols.
type Numbered = (&'static [u8], &'static [usize], [Option<usize>; 5]);

const POLICIES: [Numbered; 3] = [
    // The names b, d, p and use.
    (
        b"(class p (use))(type b)(type d)",
        &[0, 1, 2, 3],
        [Some(0), Some(1), Some(2), Some(3), None],
    ),
    // The names a, d, p and use.
    (
        b"(class p (use))(type d)(type a)",
        &[4, 1, 2, 3],
        [None, Some(1), Some(2), Some(3), Some(0)],
    ),
    // The names b and use.
    (
        b"(class b (use))",
        &[0, 3],
        [Some(0), None, None, Some(1), None],
    ),
];

// Whether these are the symbols of a policy's names, and its numbers of symbols.
fn is_numbered(numbering: &Numbering, symbols: &[usize], locals: &[Option<usize>]) -> bool {
    for local in 0..=symbols.len() {
        if numbering.symbol(local) != symbols.get(local).copied() {
            return false;
        }
    }
    for symbol in 0..locals.len() {
        if numbering.local(symbol) != locals[symbol] {
            return false;
        }
    }
    numbering.len() == symbols.len()
}

// The numbering of the policy of a text.
fn numbering_of(rt: &impl Abort, alloc: Global, symbols: &mut Symbols, text: &[u8]) -> Numbering {
    let resolved = policy(rt, alloc, text);
    Numbering::of(alloc, symbols, &resolved).expect(rt, "memory")
}

// Whether the next policy is numbered so.
fn is_next(rt: &impl Abort, alloc: Global, symbols: &mut Symbols, next: &Numbered) -> bool {
    let (text, want, locals) = next;
    is_numbered(&numbering_of(rt, alloc, symbols, text), want, locals)
}

// Whether the policies are numbered so, one after the other.
fn are_numbered(rt: &impl Abort, alloc: Global) -> bool {
    let mut symbols = Symbols::new(alloc, Seed::fixed());
    for next in &POLICIES {
        if !is_next(rt, alloc, &mut symbols, next) {
            return false;
        }
    }
    symbols.len() == 5 && symbols.find(b"a") == Some(4) && symbols.find(b"z").is_none()
}

#[test]
fn policies_among_symbols(rt: HostRuntime) {
    let same = are_numbered(&rt, rt.alloc());
    assert!(&rt; same);
}
