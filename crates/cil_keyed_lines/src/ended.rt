//! Keys that name no line once steps have ended.

ghost use Rattle.std.specs.Prelude.{◌≡◌, ◌≢◌, ◌<◌, ◌≤◌, [], ℕ, length, take, true};
ghost use Rattle.cil_keyed_lines.specs.Keyed.{count_by};
ghost use Rattle.cil_keyed_lines.specs.declared.symbol_key.SymbolKey.{SymbolKey};
ghost use Rattle.cil_recorded.specs.Recorded.{lines_in, steps_in};
ghost use Rattle.cil_keyed_lines.specs.Names.{has_place, name_now};
ghost use Rattle.cil_keyed_lines.specs.Keyed.{now_in, AreCounted, AreLines, ArePaired, AreKeyed, AreTaken};

use crate::names::{Names, Rename};
use crate::symbol_key::SymbolKey;
use cil_recorded::RecordedLines;
use indexmap::IndexSet;
use std::alloc::Allocator;
use std::hash::{BuildHasherDefault, FoldHasher};

/// Takes out a key that names no line, and puts the last key in its place.
fn take_out<A: Allocator>(
    keys: &mut IndexSet<SymbolKey, BuildHasherDefault<FoldHasher>, A>,
    names: &mut Names<A>,
    place: usize,
)
    requires paired { ArePaired keys.old.keys names.old }
    requires place { place < length keys.old.keys }
    requires none { name_now names.old place ≡ 0 }
    ensures paired { ArePaired keys.new.keys names.new }
    ensures taken { AreTaken keys.old.keys names.old keys.new.keys names.new }
    ensures len { length keys.new.keys < length keys.old.keys }
    ensures others { (p : ℕ) → p ≢ place → p < length keys.new.keys → name_now names.new p
        ≡ name_now names.old p }
{
    keys.swap_remove_index(place);
    names.swap_remove(place);
}

/// Takes out keys until that of a place names a line, or there is none: what comes from the end to the place may name
/// none, too.
fn fill_place<A: Allocator>(
    keys: &mut IndexSet<SymbolKey, BuildHasherDefault<FoldHasher>, A>,
    names: &mut Names<A>,
    place: usize,
)
    requires paired { ArePaired keys.old.keys names.old }
    ensures paired { ArePaired keys.new.keys names.new }
    ensures taken { AreTaken keys.old.keys names.old keys.new.keys names.new }
    ensures len { length keys.new.keys ≤ length keys.old.keys }
    ensures here { place < length keys.new.keys → name_now names.new place ≢ 0 }
    ensures others { (p : ℕ) → p ≢ place → p < length keys.new.keys → name_now names.new p
        ≡ name_now names.old p }
{
    while place < keys.len() && names.line(place) == 0 {
        take_out(keys, names, place);
    }
}

/// Takes out the keys that name no line, where all of these are places of changes. It empties the list of the changes. It
/// takes no memory, and looks at no other key.
pub fn take_out_unnamed<A: Allocator>(
    keys: &mut IndexSet<SymbolKey, BuildHasherDefault<FoldHasher>, A>,
    names: &mut Names<A>,
    changes: &mut Vec<Rename, A>,
)
    requires paired { ArePaired keys.old.keys names.old }
    requires logged { (p : ℕ) → p < length keys.old.keys → name_now names.old p ≡ 0
        → has_place changes.old.items p ≡ true }
    ensures paired { ArePaired keys.new.keys names.new }
    ensures taken { AreTaken keys.old.keys names.old keys.new.keys names.new }
    ensures named { (p : ℕ) → p < length keys.new.keys → name_now names.new p ≢ 0 }
{
    while let Some(change) = changes.pop() {
        fill_place(keys, names, change.place);
    }
}

/// Takes out the keys from a place on, which name no line, and the lines behind the last that a key names.
pub fn cut<A: Allocator>(
    keys: &mut IndexSet<SymbolKey, BuildHasherDefault<FoldHasher>, A>,
    names: &mut Names<A>,
    lines: &mut RecordedLines<A>,
    places: usize,
)
    requires paired { ArePaired keys.old.keys names.old }
    requires settled { steps_in lines.old ≡ 0 }
    requires lined { AreLines names.old lines.old }
    requires counted { AreCounted names.old lines.old }
    requires have { places ≤ length keys.old.keys }
    requires named { (p : ℕ) → p < places → name_now names.old p ≢ 0 }
    requires rest { (p : ℕ) → places ≤ p → name_now names.old p ≡ 0 }
    ensures shared { AreKeyed keys.new.keys names.new lines.new places (lines_in lines.new) }
    ensures keys { keys.new.keys ≡ take places keys.old.keys }
    ensures log { names.new.log ≡ [] }
    ensures steps { steps_in lines.new ≡ 0 }
    ensures now { (k : SymbolKey) (t : ℕ)
        → count_by (now_in names.new lines.new) keys.new.keys k t
        ≡ count_by (now_in names.old lines.old) keys.old.keys k t }
{
    let end = names.end();
    keys.truncate(places);
    names.cut(places, end);
    lines.truncate(end);
}

/// Packs the lines if there are more than twice as many as when they were packed last, and more than a quarter as many as
/// keys. Packing looks at all lines and keys, so lines have come since that pay for it. It answers how many lines there were
/// when they were packed last. It takes no memory.
pub fn pack_grown<A: Allocator>(
    keys: &IndexSet<SymbolKey, BuildHasherDefault<FoldHasher>, A>,
    names: &mut Names<A>,
    lines: &mut RecordedLines<A>,
    packed: usize,
) -> usize
    requires shared { AreKeyed keys.now.keys names.old lines.old (length keys.now.keys)
        (lines_in lines.old) }
    requires log { names.old.log ≡ [] }
    requires steps { steps_in lines.old ≡ 0 }
    ensures shared { AreKeyed keys.now.keys names.new lines.new (length keys.now.keys)
        (lines_in lines.new) }
    ensures log { names.new.log ≡ [] }
    ensures steps { steps_in lines.new ≡ 0 }
    ensures now { (k : SymbolKey) (t : ℕ)
        → count_by (now_in names.new lines.new) keys.now.keys k t
        ≡ count_by (now_in names.old lines.old) keys.now.keys k t }
{
    if lines.len() / 2 <= packed.max(keys.len() / 8) {
        return packed;
    }
    names.pack(lines);
    lines.len()
}
