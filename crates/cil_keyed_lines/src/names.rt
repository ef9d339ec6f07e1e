//! The lines that places name.

ghost use Rattle.std.specs.Prelude.{◌≡◌, ◌≢◌, ◌↔◌, ◌+◌, ◌<◌, ◌≤◌, ◌==◌, ◌^◌, ◌++◌, ◌∷◌, [], ℕ, true, length, min, reverse, set, slice_index, vec_capacity, vec_len, if◌then◌else◌, IfOk, IsTrue, OnErr, OnOk};
ghost use Rattle.std.specs.List.{All};
ghost use Rattle.cil_keyed_lines.specs.Names.{has_place, name_before, name_now, one_if, unnamed, uses, AreLogged};

mod packed;

use std::alloc::{AllocError, Allocator, Global};
use std::marker::Model;
use std::mem;

/// A place that changed its line, and the line that it named before.
#[derive(Clone, Copy)]
pub struct Rename {
    pub place: usize,
    pub line: usize,
}

/// Puts a change at the end of a log that has room for it.
fn log_rename<A: Allocator>(log: &mut Vec<Rename, A>, change: Rename)
    requires { vec_len log.old < vec_capacity log.old }
    ensures items { log.new.items ≡ log.old.items ++ change ∷ [] }
    ensures len { vec_len log.new ≡ vec_len log.old + 1 }
    ensures capacity { vec_capacity log.old ≤ vec_capacity log.new }
{
    if log.push(change).is_err() {
        unreachable!("the log has room for the change");
    }
}

/// A place names a line no more.
fn leave<A: Allocator>(users: &mut Vec<usize, A>, line: usize)
    requires { line ≢ 0 → 0 < slice_index users.old.items line }
    ensures len { length users.new.items ≡ length users.old.items }
    ensures users { (l : ℕ) → l ≢ 0 → slice_index users.new.items l + one_if (line == l)
        ≡ slice_index users.old.items l }
{
    if line != 0 && line < users.len() {
        users[line] -= 1;
    }
}

/// A place names a line from now on.
pub fn join<A: Allocator>(users: &mut Vec<usize, A>, line: usize)
    requires line { line ≢ 0 → line < length users.old.items }
    requires fits { line ≢ 0 → slice_index users.old.items line < 2 ^ 63 }
    ensures len { length users.new.items ≡ length users.old.items }
    ensures users { (l : ℕ) → l ≢ 0 → slice_index users.new.items l
        ≡ slice_index users.old.items l + one_if (line == l) }
{
    if line != 0 {
        users[line] += 1;
    }
}

/// Lets a place name a line.
fn name<A: Allocator>(
    named: &mut Vec<usize, A>,
    users: &mut Vec<usize, A>,
    place: usize,
    line: usize,
)
    requires place { place < length named.old.items }
    requires line { line ≢ 0 → line < length users.old.items }
    requires counted { (l : ℕ) → l ≢ 0 → slice_index users.old.items l ≡ uses named.old.items l }
    ensures named { named.new.items ≡ set named.old.items place line }
    ensures len { length users.new.items ≡ length users.old.items }
    ensures counted { (l : ℕ) → l ≢ 0 → slice_index users.new.items l ≡ uses named.new.items l }
{
    leave(users, named[place]);
    join(users, line);
    named[place] = line;
}

/// Lets each place name the line that it named before changes, from the newest on.
fn take_back<A: Allocator>(named: &mut Vec<usize, A>, log: &[Rename])
    requires { All (λ r. r.place < length named.old.items) log.now }
    ensures { (p : ℕ) → slice_index named.new.items p
        ≡ unnamed (reverse log.now) (slice_index named.old.items) p }
{
    let mut left = log.len();
    while left > 0 {
        left -= 1;
        named[log[left].place] = log[left].line;
    }
}

/// The line that each place names, and how many places name each line. Line 0 stands for none: it is not told how many
/// places name it. The places that changed their line are logged, so that `undo` takes the changes back.
#[derive(Drop)]
pub struct Names<A: Allocator = Global> {
    named: Vec<usize, A>,
    users: Vec<usize, A>,
    log: Vec<Rename, A>,
}

impl<A: Allocator> Model for Names<A> {
    ghost use Rattle.std.specs.Prelude.{◌-◌, length, vec_capacity, vec_len};
    ghost use Rattle.cil_keyed_lines.specs.Names.{AreNames, Naming};

    ghost Value = { Naming };

    ghost view = { λ n. record { named = n.named.items; lines = length n.users.items; log = n.log.items; room = vec_capacity n.log - vec_len n.log } };

    ghost invariant = { λ n. AreNames n.named.items n.users.items n.log.items };
}

impl<A: Allocator + Copy> Names<A> {
    /// No place and no line.
    pub fn new(alloc: A) -> Self
        ensures named { result.named ≡ [] }
        ensures lines { result.lines ≡ 0 }
        ensures log { result.log ≡ [] }
    {
        Names {
            named: Vec::new(alloc),
            users: Vec::new(alloc),
            log: Vec::new(alloc),
        }
    }
}

impl<A: Allocator + Copy> Names<A> {
    /// The line that each place named before the changes.
    pub fn before(&self, alloc: A) -> Result<Vec<usize, A>, AllocError>
        ensures { IfOk result (λ v. (p : ℕ) → slice_index v.items p ≡ name_before self.now p) }
    {
        let mut named = Vec::with_capacity(alloc, self.named.len())?;
        named.extend_from_slice(&self.named)?;
        take_back(&mut named, &self.log);
        Ok(named)
    }
}

impl<A: Allocator> Names<A> {
    /// How many lines there are.
    pub fn lines(&self) -> usize
        ensures { result ≡ self.now.lines }
    {
        self.users.len()
    }

    /// The line that a place names, or 0 where there is no such place.
    pub fn line(&self, place: usize) -> usize
        ensures { result ≡ name_now self.now place }
    {
        if place < self.named.len() {
            self.named[place]
        } else {
            0
        }
    }

    /// The line that each place names.
    pub fn named(&self) -> &[usize]
        ensures { result.now ≡ self.now.named }
    {
        &self.named
    }

    /// How many places name a line.
    pub fn users(&self, line: usize) -> usize
        requires { line ≢ 0 }
        ensures { result ≡ uses self.now.named line }
    {
        if line < self.users.len() {
            self.users[line]
        } else {
            0
        }
    }

    /// Whether there are changes that `undo` would take back.
    pub fn is_pending(&self) -> bool
        ensures { IsTrue result ↔ (0 < length self.now.log) }
    {
        !self.log.is_empty()
    }

    /// Puts in a place behind the others. It names line 0, and is logged as one that changed its line.
    pub fn push(&mut self) -> Result<(), AllocError>
        ensures ok { OnOk result (length self.new.named ≡ length self.old.named + 1) }
        ensures err { OnErr result (length self.new.named ≡ length self.old.named) }
        ensures lines { self.new.lines ≡ self.old.lines }
        ensures now { (p : ℕ) → name_now self.new p ≡ name_now self.old p }
        ensures before { (p : ℕ) → name_before self.new p ≡ name_before self.old p }
        ensures logged { AreLogged self.old → AreLogged self.new }
    {
        let place = self.named.len();
        self.log.reserve(1)?;
        self.named.push(0)?;
        log_rename(&mut self.log, Rename { place, line: 0 });
        Ok(())
    }

    /// Lets a line be named that may be the first behind the others.
    pub fn make_line(&mut self, line: usize) -> Result<(), AllocError>
        requires { line ≤ self.old.lines }
        ensures ok { OnOk result (line < self.new.lines) }
        ensures lines { self.old.lines ≤ self.new.lines }
        ensures named { self.new.named ≡ self.old.named }
        ensures log { self.new.log ≡ self.old.log }
        ensures room { self.new.room ≡ self.old.room }
    {
        if line == self.users.len() {
            self.users.push(0)?;
        }
        Ok(())
    }

    /// Makes room to log so many changes.
    pub fn reserve(&mut self, changes: usize) -> Result<(), AllocError>
        ensures room { OnOk result (changes ≤ self.new.room) }
        ensures named { self.new.named ≡ self.old.named }
        ensures log { self.new.log ≡ self.old.log }
        ensures lines { self.new.lines ≡ self.old.lines }
    {
        self.log.reserve(changes)
    }

    /// Lets a place name a line. It takes no memory.
    pub fn rename(&mut self, place: usize, line: usize)
        requires place { place < length self.old.named }
        requires line { line ≢ 0 → line < self.old.lines }
        requires room { 0 < self.old.room }
        ensures len { length self.new.named ≡ length self.old.named }
        ensures lines { self.new.lines ≡ self.old.lines }
        ensures room { self.old.room ≤ self.new.room + 1 }
        ensures now { (p : ℕ) → name_now self.new p
            ≡ (if p == place then line else name_now self.old p) }
        ensures before { (p : ℕ) → name_before self.new p ≡ name_before self.old p }
        ensures here { has_place self.new.log place ≡ true }
        ensures logged { (p : ℕ) → has_place self.old.log p ≡ true → has_place self.new.log p
            ≡ true }
    {
        let change = Rename {
            place,
            line: self.named[place],
        };
        name(&mut self.named, &mut self.users, place, line);
        log_rename(&mut self.log, change);
    }

    /// Takes the changes back. It takes no memory.
    pub fn undo(&mut self)
        ensures len { length self.new.named ≡ length self.old.named }
        ensures lines { self.new.lines ≡ self.old.lines }
        ensures log { self.new.log ≡ [] }
        ensures now { (p : ℕ) → name_now self.new p ≡ name_before self.old p }
    {
        while let Some(change) = self.log.pop() {
            name(&mut self.named, &mut self.users, change.place, change.line);
        }
    }

    /// Keeps the changes, so that they can't be taken back any more, and exchanges their list for another, which is
    /// emptied. It takes no memory.
    pub fn settle_into(&mut self, changes: &mut Vec<Rename, A>)
        ensures given { changes.new.items ≡ self.old.log }
        ensures log { self.new.log ≡ [] }
        ensures named { self.new.named ≡ self.old.named }
        ensures lines { self.new.lines ≡ self.old.lines }
    {
        mem::swap(&mut self.log, changes);
        self.log.clear();
    }

    /// Takes out the places and the lines from some on, where none of these lines is named and these places name none.
    pub fn cut(&mut self, places: usize, lines: usize)
        requires settled { self.old.log ≡ [] }
        requires places { (p : ℕ) → places ≤ p → name_now self.old p ≡ 0 }
        requires lines { (p : ℕ) → name_now self.old p ≢ 0 → name_now self.old p < lines }
        requires have_places { places ≤ length self.old.named }
        ensures len { length self.new.named ≡ places }
        ensures lines { self.new.lines ≡ min lines self.old.lines }
        ensures log { self.new.log ≡ [] }
        ensures now { (p : ℕ) → name_now self.new p ≡ name_now self.old p }
    {
        self.named.truncate(places);
        self.users.truncate(lines);
    }

    /// Takes out a place that names line 0, and puts the last place there.
    pub fn swap_remove(&mut self, place: usize)
        requires settled { self.old.log ≡ [] }
        requires place { place < length self.old.named }
        requires none { name_now self.old place ≡ 0 }
        ensures len { length self.new.named + 1 ≡ length self.old.named }
        ensures lines { self.new.lines ≡ self.old.lines }
        ensures log { self.new.log ≡ [] }
        ensures moved { place < length self.new.named → name_now self.new place
            ≡ name_now self.old (length self.new.named) }
        ensures others { (p : ℕ) → p ≢ place → p < length self.new.named → name_now self.new p
            ≡ name_now self.old p }
    {
        self.named.swap_remove(place);
    }

    /// A line from which on none is named, or 1.
    pub fn end(&self) -> usize
        ensures { (p : ℕ) → name_now self.now p ≢ 0 → name_now self.now p < result }
    {
        let mut end = self.users.len();
        while end > 1 && self.users[end - 1] == 0 {
            end -= 1;
        }
        end
    }
}
