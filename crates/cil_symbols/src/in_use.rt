//! Which symbols are in use.

ghost use Rattle.std.specs.Prelude.{◌≡◌, ◌+◌, ◌<◌, ◌≤◌, ℕ, false, length, max, slice_get, Some, IfOk, OnErr, OnOk};
ghost use Rattle.cil_symbols.specs.InUse.{used_in, AreUsedBelow, IsUsed};

use crate::symbols::Symbols;
use std::alloc::{AllocError, Allocator, Global};
use std::marker::Model;

/// Which symbols are in use, so that a name that comes gets one that isn't, whose name went. Contracts see for each symbol whether it
/// is.
#[derive(Drop)]
pub struct InUse<A: Allocator = Global> {
    marks: Vec<bool, A>,
    /// Each symbol below this one is in use.
    next: usize,
}

impl<A: Allocator> Model for InUse<A> {
    ghost use Rattle.std.specs.Prelude.{Bool, List};
    ghost use Rattle.cil_symbols.specs.InUse.{AreUsedBelow};

    ghost Value = { List Bool };

    ghost view = { λ u. u.marks.items };

    ghost invariant = { λ u. AreUsedBelow u.marks.items u.next };
}

/// The first place from one on without a mark, or how many marks there are where each has one.
fn first_free(marks: &[bool], from: usize) -> usize
    requires { AreUsedBelow marks.now from }
    ensures below { AreUsedBelow marks.now result }
    ensures free { result < length marks.now → slice_get marks.now result ≡ Some false }
{
    for place in from..marks.len() {
        if !marks[place] {
            return place;
        }
    }
    marks.len()
}

impl<A: Allocator> InUse<A> {
    /// The symbols with these marks.
    pub fn new(marks: Vec<bool, A>) -> Self
        ensures { result ≡ marks.items }
    {
        InUse { marks, next: 0 }
    }

    /// The first symbol that isn't in use, or how many there are where all are.
    fn next_free(&mut self) -> usize
        ensures marks { self.new ≡ self.old }
        ensures below { AreUsedBelow self.old result }
        ensures free { result < length self.old → slice_get self.old result ≡ Some false }
    {
        self.next = first_free(&self.marks, self.next);
        self.next
    }

    /// The symbol of a name: its own, else one that isn't in use, else a new one. It is in use from then on. The names of symbols in use
    /// stay.
    pub fn number<B: Allocator + Copy>(
        &mut self,
        alloc: B,
        symbols: &mut Symbols<B>,
        name: &[u8],
    ) -> Result<usize, AllocError>
        requires long { length self.old ≡ length symbols.old }
        ensures number { IfOk result (λ n. slice_get symbols.new n ≡ Some name.now) }
        ensures used { IfOk result (IsUsed self.new) }
        ensures long { OnOk result (length self.new ≡ length symbols.new) }
        ensures kept { (s : ℕ) → IsUsed self.old s → slice_get symbols.new s ≡ slice_get symbols.old s }
        ensures still { (s : ℕ) → IsUsed self.old s → IsUsed self.new s }
        ensures count { OnOk result (used_in self.new ≤ used_in self.old + 1) }
        ensures few { OnOk result (length symbols.new ≤ max (length symbols.old) (used_in self.new)) }
        ensures grown { length symbols.old ≤ length symbols.new }
        ensures err { OnErr result (symbols.new ≡ symbols.old) }
    {
        if let Some(n) = symbols.find(name) {
            self.marks[n] = true;
            return Ok(n);
        }
        let free = self.next_free();
        if free < self.marks.len() {
            symbols.reuse(alloc, free, name)?;
            self.marks[free] = true;
        } else {
            self.marks.push(true)?;
            symbols.number(alloc, name)?;
        }
        Ok(free)
    }
}
