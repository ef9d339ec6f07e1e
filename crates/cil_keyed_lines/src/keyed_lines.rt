//! Lines of counters that keys share.

ghost use Rattle.std.specs.Prelude.{[], ◌≡◌, ◌↔◌, ℕ, ◌+◌, ◌-◌, ◌*◌, ◌<◌, ◌≤◌, ◌^◌, false, length, min, not, position, slice_get, true, Some, IfOk, IsTrue, MatchOption, OnErr, OnOk};
ghost use Rattle.std.specs.List.{list_any, IsDistinct};
ghost use Rattle.std.specs.Option.{is_some};
ghost use Rattle.cil_lines.specs.Line.{IsPresence, IsNextPresent, NonePresent};
ghost use Rattle.cil_keyed_lines.specs.Moves.{came, ones_of, went, AreMoves};
ghost use Rattle.cil_keyed_lines.specs.Names.{name_before, name_now, times, AreLogged};
ghost use Rattle.cil_keyed_lines.specs.Keyed.{before_at, count_before, count_now, index_of, is_key, listed, now_at, of_keys, steps_in, with_key, AllCounted, AreAmong, AreApart, AreMoved, AreNamed, IsLineOf, IsNoLine, NoneCounted, RiseAtMost, Stays, StaysBefore};

mod changes;
mod past;

use crate::ended::{cut, pack_grown, take_out_unnamed};
use crate::moved::Moved;
use crate::moves::move_places;
use crate::named::{Named, put_in_order};
use crate::names::{Names, Rename};
use crate::symbol_key::SymbolKey;
use cil_recorded::{RecordedLines, Step};
use indexmap::IndexSet;
pub use past::Past;
use std::alloc::{AllocError, Allocator, Global};
use std::hash::{BuildHasherDefault, FoldHasher};
use std::marker::Model;
use std::mem;

/// How many counters move where so many keys move alike, or the greatest `u128` where they are more.
fn moved_counters(keys: usize, moved: &[Moved]) -> u128
    ensures { result ≡ min (keys * ones_of moved.now) (2 ^ 128 - 1) }
{
    let mut ones: u128 = 0;
    for step in moved {
        let gone = step.gone.count_ones() as u128;
        let come = step.come.count_ones() as u128;
        ones = ones.saturating_add(gone + come);
    }
    ones.saturating_mul(keys as u128)
}

/// The place of a key, which is put in behind the others where it isn't there, and whether it was new.
fn insert<A: Allocator>(
    keys: &mut IndexSet<SymbolKey, BuildHasherDefault<FoldHasher>, A>,
    key: SymbolKey,
) -> Result<(usize, bool), AllocError>
    ensures place { IfOk result (λ r. (r.0 ≡ index_of keys.old.keys key)
        × (r.0 < length keys.new.keys)) }
    ensures new { IfOk result (λ r. r.1 ≡ not (list_any (is_key key) keys.old.keys)) }
    ensures ok { OnOk result (keys.new.keys ≡ with_key keys.old.keys key) }
    ensures err { OnErr result (keys.new.keys ≡ keys.old.keys) }
    ensures distinct { IsDistinct is_key keys.new.keys }
{
    match keys.insert_full(key) {
        Ok(placed) => Ok(placed),
        Err(_) => Err(AllocError),
    }
}

/// The place of a key, which is put in behind the others where it has none. It names line 0 then.
/// One look-up tells whether it is there and where it goes.
#[inline(never)]
fn put_key<A: Allocator>(
    keys: &mut IndexSet<SymbolKey, BuildHasherDefault<FoldHasher>, A>,
    names: &mut Names<A>,
    key: SymbolKey,
) -> Result<usize, AllocError>
    requires len { length names.old.named ≡ length keys.old.keys }
    ensures place { IfOk result (λ i. position (is_key key) keys.new.keys ≡ Some i) }
    ensures within { IfOk result (λ i. i < length keys.new.keys) }
    ensures ok { OnOk result (keys.new.keys ≡ with_key keys.old.keys key) }
    ensures err { OnErr result (keys.new.keys ≡ keys.old.keys) }
    ensures distinct { IsDistinct is_key keys.new.keys }
    ensures len { length names.new.named ≡ length keys.new.keys }
    ensures longer { length keys.old.keys ≤ length keys.new.keys }
    ensures lines { names.new.lines ≡ names.old.lines }
    ensures now { (p : ℕ) → name_now names.new p ≡ name_now names.old p }
    ensures before { (p : ℕ) → name_before names.new p ≡ name_before names.old p }
    ensures logged { AreLogged names.old → AreLogged names.new }
{
    let len = keys.len();
    let (place, is_new) = insert(keys, key)?;
    if is_new && names.push().is_err() {
        keys.truncate(len);
        return Err(AllocError);
    }
    Ok(place)
}

/// Lines of counters, each named by keys whose counters are the same. A key that names no line has no counter above 0.
/// The counters of keys are changed in steps, which `undo` takes back and `settle` keeps. A key's place stays while other
/// keys come. At the end of the steps, keys are taken out that name no line.
#[derive(Drop)]
pub struct KeyedLines<A: Allocator = Global> {
    keys: IndexSet<SymbolKey, BuildHasherDefault<FoldHasher>, A>,
    names: Names<A>,
    lines: RecordedLines<A>,
    /// How many keys and lines there were before the steps.
    keys_before: usize,
    lines_before: usize,
    /// How many lines there were when they were packed last.
    packed: usize,
    /// The room of the logs while keys are taken out, and nothing otherwise.
    steps: Vec<Step, A>,
    changes: Vec<Rename, A>,
    /// The memory of lists of places and of keys, from one to the next.
    places: Vec<Named, A>,
    listed: Vec<SymbolKey, A>,
}

impl<A: Allocator> Model for KeyedLines<A> {
    ghost use Rattle.cil_keyed_lines.specs.Keyed.{AreKeyed, Keyed};

    ghost Value = { Keyed };

    ghost view = { λ s. record { keys = s.keys.keys; names = s.names; lines = s.lines } };

    ghost invariant = { λ s. AreKeyed s.keys.keys s.names s.lines s.keys_before s.lines_before };
}

impl<A: Allocator + Copy> KeyedLines<A> {
    /// No key, no line and no step.
    pub fn new(alloc: A) -> Self
        ensures keys { length result.keys ≡ 0 }
        ensures changes { steps_in result ≡ 0 }
        ensures now { (k : SymbolKey) (t : ℕ) → count_now result k t ≡ 0 }
        ensures before { (k : SymbolKey) (t : ℕ) → count_before result k t ≡ 0 }
    {
        KeyedLines {
            keys: IndexSet::new(alloc),
            names: Names::new(alloc),
            lines: RecordedLines::new(alloc),
            keys_before: 0,
            lines_before: 0,
            packed: 0,
            steps: Vec::new(alloc),
            changes: Vec::new(alloc),
            places: Vec::new(alloc),
            listed: Vec::new(alloc),
        }
    }

    /// An empty list of places with room for so many: the memory of the last one, where that was kept.
    fn take_places(&mut self, alloc: A, len: usize) -> Result<Vec<Named, A>, AllocError>
        ensures empty { IfOk result (λ v. v.items ≡ []) }
        ensures same { self.new ≡ self.old }
    {
        let mut places = Vec::new(alloc);
        mem::swap(&mut self.places, &mut places);
        places.clear();
        places.reserve(len)?;
        Ok(places)
    }

    /// Keeps the memory of a list of places for the next one.
    fn keep_places(&mut self, places: Vec<Named, A>)
        ensures same { self.new ≡ self.old }
    {
        self.places = places;
    }

    /// An empty list of keys: the memory of the last one, where that was kept. No counter changes.
    pub fn take_keys(&mut self, alloc: A) -> Vec<SymbolKey, A>
        ensures empty { result.items ≡ [] }
        ensures same { self.new ≡ self.old }
    {
        let mut keys = Vec::new(alloc);
        mem::swap(&mut self.listed, &mut keys);
        keys.clear();
        keys
    }

    /// Keeps the memory of a list of keys for the next one. No counter changes.
    pub fn keep_keys(&mut self, keys: Vec<SymbolKey, A>)
        ensures same { self.new ≡ self.old }
    {
        self.listed = keys;
    }

    /// The place of a key, which is put in where it has none. It is looked for first at the place at
    /// which it is likely. No counter changes.
    fn reach_key(&mut self, likely: usize, key: SymbolKey) -> Result<usize, AllocError>
        ensures place { IfOk result (λ i. position (is_key key) self.new.keys ≡ Some i) }
        ensures within { IfOk result (λ i. (i < length self.new.keys)
            × (i < length self.new.names.named)) }
        ensures grown { OnOk result (self.new.keys ≡ with_key self.old.keys key) }
        ensures distinct { IsDistinct is_key self.new.keys }
        ensures longer { length self.old.keys ≤ length self.new.keys }
        ensures places { (i : ℕ) (k : SymbolKey) → slice_get self.old.keys i ≡ Some k
            → slice_get self.new.keys i ≡ Some k }
        ensures more { length self.old.names.named ≤ length self.new.names.named }
        ensures names { (p : ℕ) → name_now self.new.names p ≡ name_now self.old.names p }
        ensures now { Stays self.old self.new }
        ensures before { StaysBefore self.old self.new }
    {
        if self.is_at(likely, key) {
            return Ok(likely);
        }
        let place = put_key(&mut self.keys, &mut self.names, key)?;
        Ok(place)
    }

    /// The places of keys, each with the line that it names. Keys that have none are put in. No counter changes.
    /// A key often stands behind the one in front of it in the list, so it is looked for there first.
    fn places_of(&mut self, alloc: A, keys: &[SymbolKey]) -> Result<Vec<Named, A>, AllocError>
        requires { IsDistinct is_key keys.now }
        ensures named { IfOk result (λ v. AreNamed v.items self.new.names) }
        ensures times { IfOk result (λ v. (k : SymbolKey)
            → times v.items (index_of self.new.keys k) ≡ listed keys.now k) }
        ensures places { (i : ℕ) (k : SymbolKey) → slice_get self.old.keys i ≡ Some k
            → slice_get self.new.keys i ≡ Some k }
        ensures now { Stays self.old self.new }
        ensures before { StaysBefore self.old self.new }
    {
        let mut places = self.take_places(alloc, keys.len())?;
        let mut likely = 0;
        for key in keys {
            let place = self.reach_key(likely, *key)?;
            let line = self.line_of(place);
            places.push(Named { line, place })?;
            likely = place.wrapping_add(1);
        }
        Ok(places)
    }

    /// Rules gave keys the targets that go, and give them those that come now: takes 1 from the counter of each target
    /// that goes from a key of the list, adds 1 to that of each that comes, and answers how many counters moved. After an
    /// out of memory the counters of some keys may have moved.
    pub fn shift(
        &mut self,
        alloc: A,
        keys: &[SymbolKey],
        moved: &[Moved],
    ) -> Result<u128, AllocError>
        requires keys { IsDistinct is_key keys.now }
        requires moved { AreMoves moved.now }
        requires above { (k : SymbolKey) (t : ℕ)
            → of_keys keys.now (went moved.now) k t ≤ count_now self.old k t }
        ensures moved { IfOk result
            (λ n. n ≡ min (length keys.now * ones_of moved.now) (2 ^ 128 - 1)) }
        ensures now { OnOk result (AreMoved self.old self.new (of_keys keys.now (went moved.now)) (of_keys keys.now (came moved.now))) }
        ensures bounded { RiseAtMost self.old self.new (of_keys keys.now (came moved.now)) }
        ensures places { (i : ℕ) (k : SymbolKey) → slice_get self.old.keys i ≡ Some k
            → slice_get self.new.keys i ≡ Some k }
        ensures before { StaysBefore self.old self.new }
    {
        let mut places = self.places_of(alloc, keys)?;
        put_in_order(&mut places);
        self.move_keys(alloc, &places, moved)?;
        self.keep_places(places);
        Ok(moved_counters(keys.len(), moved))
    }

    /// Moves the counters of the keys of places.
    #[inline(never)]
    fn move_keys(&mut self, alloc: A, places: &[Named], moved: &[Moved]) -> Result<(), AllocError>
        requires named { AreNamed places.now self.old.names }
        requires moved { AreMoves moved.now }
        requires above { (k : SymbolKey) (t : ℕ)
            → times places.now (index_of self.old.keys k) * went moved.now t ≤ count_now self.old k t }
        ensures now { OnOk result ((k : SymbolKey) (t : ℕ)
            → count_now self.new k t + times places.now (index_of self.old.keys k) * went moved.now t
            ≡ count_now self.old k t + times places.now (index_of self.old.keys k) * came moved.now t) }
        ensures bounded { (k : SymbolKey) (t : ℕ)
            → count_now self.new k t ≤ count_now self.old k t + times places.now (index_of self.old.keys k) * came moved.now t }
        ensures keys { self.new.keys ≡ self.old.keys }
        ensures before { StaysBefore self.old self.new }
    {
        move_places(&mut self.names, &mut self.lines, alloc, places, moved)
    }

    /// The same as `shift`, where there is no step to take back, for good. After an out of memory no counter has changed.
    pub fn add(&mut self, alloc: A, keys: &[SymbolKey], moved: &[Moved]) -> Result<u128, AllocError>
        requires keys { IsDistinct is_key keys.now }
        requires moved { AreMoves moved.now }
        requires above { (k : SymbolKey) (t : ℕ)
            → of_keys keys.now (went moved.now) k t ≤ count_now self.old k t }
        requires settled { steps_in self.old ≡ 0 }
        ensures settled { steps_in self.new ≡ 0 }
        ensures moved { IfOk result
            (λ n. n ≡ min (length keys.now * ones_of moved.now) (2 ^ 128 - 1)) }
        ensures now { OnOk result (AreMoved self.old self.new (of_keys keys.now (went moved.now)) (of_keys keys.now (came moved.now))) }
        ensures kept { OnErr result (Stays self.old self.new) }
        ensures before { (k : SymbolKey) (t : ℕ) → count_before self.new k t
            ≡ count_now self.new k t }
    {
        let pending = self.is_pending();
        prove!(!pending);
        match self.shift(alloc, keys, moved) {
            Ok(count) => {
                self.settle();
                Ok(count)
            }
            Err(error) => {
                self.undo();
                Err(error)
            }
        }
    }
}

impl<A: Allocator> KeyedLines<A> {
    /// How many keys have a place.
    pub fn len(&self) -> usize
        ensures len { result ≡ length self.now.keys }
        ensures apart { AreApart self.now }
    {
        self.keys.len()
    }

    /// Whether no key has a place.
    pub fn is_empty(&self) -> bool
        ensures { IsTrue result ↔ (length self.now.keys ≡ 0) }
    {
        self.keys.is_empty()
    }

    /// The place of a key.
    #[inline(never)]
    fn place_of(&self, key: SymbolKey) -> Option<usize>
        ensures place { result ≡ position (is_key key) self.now.keys }
        ensures found { is_some result ≡ list_any (is_key key) self.now.keys }
    {
        self.keys.get_index_of(&key)
    }

    /// Whether a key is that of a place.
    fn is_at(&self, place: usize, key: SymbolKey) -> bool
        ensures place { result ≡ true → position (is_key key) self.now.keys ≡ Some place }
        ensures found { result ≡ true → list_any (is_key key) self.now.keys ≡ true }
    {
        match self.keys.get_index(place) {
            Some(at) => *at == key,
            None => false,
        }
    }

    /// The place of a key.
    pub fn find(&self, key: SymbolKey) -> Option<usize>
        ensures place { result ≡ position (is_key key) self.now.keys }
        ensures line { MatchOption result (NoneCounted self.now key)
            (λ i. IsLineOf self.now i key) }
    {
        self.place_of(key)
    }

    /// The line that a place names.
    fn line_of(&self, place: usize) -> usize
        ensures { result ≡ name_now self.now.names place }
    {
        self.names.line(place)
    }

    /// The key of a place.
    pub fn at(&self, place: usize) -> Option<SymbolKey>
        ensures { MatchOption result (IsNoLine self.now place) (IsLineOf self.now place) }
    {
        self.keys.get_index(place).copied()
    }

    /// The counter of a target and a key, or the greatest `u64` where it is greater.
    pub fn count(&self, key: SymbolKey, target: usize) -> u64
        ensures { result ≡ min (count_now self.now key target) (2 ^ 64 - 1) }
    {
        match self.find(key) {
            Some(place) => self.lines.count(self.names.line(place), target),
            None => 0,
        }
    }

    /// The targets of a word whose counters of the key of a place are at least 1.
    pub fn present(&self, place: usize, word: usize) -> u64
        ensures { IsPresence (now_at self.now place) word result }
    {
        self.lines.present(self.names.line(place), word)
    }

    /// The first word from one on with a target whose counter of the key of a place is at least 1.
    pub fn next_present_word(&self, place: usize, from: usize) -> Option<usize>
        ensures { MatchOption result (NonePresent (now_at self.now place) from) (IsNextPresent (now_at self.now place) from) }
    {
        self.lines.next_present_word(self.names.line(place), from)
    }

    /// Whether there are steps that `undo` would take back. Where there are none, each key has a counter above 0.
    pub fn is_pending(&self) -> bool
        ensures counted { result ≡ false → AllCounted self.now }
        ensures changes { IsTrue result ↔ (0 < steps_in self.now) }
        ensures none { result ≡ false → (k : SymbolKey) (t : ℕ) → count_before self.now k t
            ≡ count_now self.now k t }
    {
        if self.names.is_pending() {
            return true;
        }
        self.lines.is_pending()
    }

    /// Takes the steps back, and takes out the keys and the lines that came. It takes no memory.
    pub fn undo(&mut self)
        ensures keys { AreAmong self.new.keys self.old.keys }
        ensures counted { AllCounted self.new }
        ensures changes { steps_in self.new ≡ 0 }
        ensures now { (k : SymbolKey) (t : ℕ) → count_now self.new k t ≡ count_before self.old k t }
        ensures before { (k : SymbolKey) (t : ℕ) → count_before self.new k t
            ≡ count_before self.old k t }
    {
        self.names.undo();
        self.lines.undo_into(&mut self.steps);
        self.lines.give_up_words(&mut self.steps);
        self.lines.settle_into(&mut self.steps);
        cut(
            &mut self.keys,
            &mut self.names,
            &mut self.lines,
            self.keys_before,
        );
        self.lines_before = self.lines.len();
    }

    /// Keeps the steps, so that they can't be taken back any more, and takes out the keys that name no line. It takes no
    /// memory, and looks at no key that no step changed, and no line but those behind the last that a key names. Only where
    /// it packs the lines, as many have come since they were packed last, it looks at all keys and lines.
    pub fn settle(&mut self)
        ensures keys { AreAmong self.new.keys self.old.keys }
        ensures counted { AllCounted self.new }
        ensures changes { steps_in self.new ≡ 0 }
        ensures now { (k : SymbolKey) (t : ℕ) → count_now self.new k t ≡ count_now self.old k t }
        ensures before { (k : SymbolKey) (t : ℕ) → count_before self.new k t
            ≡ count_now self.old k t }
    {
        self.lines.settle_into(&mut self.steps);
        self.lines.give_up_words(&mut self.steps);
        self.lines.settle_into(&mut self.steps);
        self.names.settle_into(&mut self.changes);
        take_out_unnamed(&mut self.keys, &mut self.names, &mut self.changes);
        let places = self.keys.len();
        cut(&mut self.keys, &mut self.names, &mut self.lines, places);
        self.packed = pack_grown(&self.keys, &mut self.names, &mut self.lines, self.packed);
        self.keys_before = places;
        self.lines_before = self.lines.len();
    }
}
