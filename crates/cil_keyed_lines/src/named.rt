//! Places with the lines that they name.

ghost use Rattle.std.specs.Prelude.{◌≡◌, ◌<◌, ◌≤◌, ℕ, length, take};
ghost use Rattle.cil_keyed_lines.specs.Names.{times, Naming};
ghost use Rattle.cil_keyed_lines.specs.Keyed.{named_at, AreNamed, AreOf};

use std::alloc::Allocator;

/// A place, and the line that it names.
#[derive(Clone, Copy)]
pub struct Named {
    pub line: usize,
    pub place: usize,
}

/// Puts places in the order of their lines.
pub fn put_in_order<A: Allocator>(places: &mut Vec<Named, A>)
    ensures named { (n : Naming) → AreNamed places.old.items n → AreNamed places.new.items n }
    ensures times { (p : ℕ) → times places.new.items p ≡ times places.old.items p }
{
    places.sort_unstable_by_key(|place| place.line);
}

/// How many places, from the first on, name the line that it names.
pub fn run_len(places: &[Named]) -> usize
    requires { 0 < length places.now }
    ensures some { 0 < result }
    ensures within { result ≤ length places.now }
    ensures same { AreOf (named_at places.now 0).line (take result places.now) }
{
    let line = places[0].line;
    let mut len = 1;
    while len < places.len() && places[len].line == line {
        len += 1;
    }
    len
}
