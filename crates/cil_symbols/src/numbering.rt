//! The symbols of a policy's names.

ghost use Rattle.std.specs.Prelude.{◌≡◌, ◌+◌, ◌++◌, ◌↔◌, ◌<◌, ◌≤◌, ℕ, List, fold, length, max, slice_get, Some, IfOk, IfSome, OnOk};
ghost use Rattle.cil_specs.specs.Lookup.{with_name};
ghost use Rattle.cil_parse.specs.Lexicon.{AreNumbersOf};
ghost use Rattle.cil_symbols.specs.InUse.{used_in, AreUsed, IsUsed};
ghost use Rattle.cil_symbols.specs.Numbered.{AreApart};

use crate::in_use::InUse;
use crate::symbols::Symbols;
use cil_resolve::Resolved;
use std::alloc::{AllocError, Allocator, Global};
use std::marker::Model;

/// For each name of a policy its symbol, by the numbers that the policy gives its names, and back. Contracts see the list of the
/// symbols, and how many symbols there are.
#[derive(Drop)]
pub struct Numbering<A: Allocator = Global> {
    symbols: Vec<usize, A>,
    // For each symbol the policy's number, if it has the name.
    locals: Vec<Option<usize>, A>,
}

impl<A: Allocator> Model for Numbering<A> {
    ghost use Rattle.std.specs.Prelude.{length};
    ghost use Rattle.cil_symbols.specs.Numbered.{AreInverse, Numbered};

    ghost Value = { Numbered };

    ghost view = { λ n. record { symbols = n.symbols.items; count = length n.locals.items } };

    ghost invariant = { λ n. AreInverse n.symbols.items n.locals.items };
}

/// The symbols of a policy's names, in the order of the policy's numbers.
fn symbols_of<A: Allocator + Copy>(
    alloc: A,
    symbols: &mut Symbols<A>,
    resolved: &Resolved<A>,
) -> Result<Vec<usize, A>, AllocError>
    ensures grown { (more : List (List ℕ)) × (symbols.new ≡ symbols.old ++ more) }
    ensures ok { OnOk result (symbols.new ≡ fold with_name symbols.old resolved.now.names.items) }
    ensures numbers { IfOk result (λ numbers. AreNumbersOf symbols.new numbers.items resolved.now.names.items) }
{
    let mut numbers = Vec::with_capacity(alloc, resolved.names_len())?;
    for i in 0..resolved.names_len() {
        numbers.push(symbols.number(alloc, resolved.name(i))?)?;
    }
    Ok(numbers)
}

/// The symbols of a policy's names, in the order of the policy's numbers. Names that come get symbols that aren't in use.
fn symbols_beside<A: Allocator + Copy>(
    alloc: A,
    symbols: &mut Symbols<A>,
    in_use: &mut InUse<A>,
    resolved: &Resolved<A>,
) -> Result<Vec<usize, A>, AllocError>
    requires long { length in_use.old ≡ length symbols.old }
    ensures kept { (s : ℕ) → IsUsed in_use.old s → slice_get symbols.new s ≡ slice_get symbols.old s }
    ensures numbers { IfOk result (λ numbers. AreNumbersOf symbols.new numbers.items resolved.now.names.items) }
    ensures grown { length symbols.old ≤ length symbols.new }
    ensures few { length symbols.new ≤ max (length symbols.old) (used_in in_use.old + length resolved.now.names.items) }
{
    let mut numbers = Vec::with_capacity(alloc, resolved.names_len())?;
    for i in 0..resolved.names_len() {
        let symbol = in_use.number(alloc, symbols, resolved.name(i))?;
        numbers.push(symbol)?;
    }
    Ok(numbers)
}

/// Adds marks of symbols that aren't in use until there are so many.
fn pad<A: Allocator>(marks: &mut Vec<bool, A>, count: usize) -> Result<(), AllocError>
    requires { length marks.old.items ≤ count }
    ensures long { OnOk result (length marks.new.items ≡ count) }
    ensures used { OnOk result ((s : ℕ) → IsUsed marks.old.items s → IsUsed marks.new.items s) }
    ensures count { OnOk result (used_in marks.new.items ≡ used_in marks.old.items) }
{
    while marks.len() < count {
        marks.push(false)?;
    }
    Ok(())
}

impl<A: Allocator + Copy> Numbering<A> {
    /// The numbering of a policy beside that of another one, whose names keep their symbols. A name that has no symbol gets one that
    /// neither policy uses, and a new one only where there is none: so there are never more symbols than the names of two policies.
    /// The same holds where memory runs out.
    pub fn beside(
        alloc: A,
        symbols: &mut Symbols<A>,
        other: &Numbering<A>,
        resolved: &Resolved<A>,
    ) -> Result<Self, AllocError>
        requires count { other.now.count ≤ length symbols.old }
        ensures kept { (k s : ℕ) → slice_get other.now.symbols k ≡ Some s → slice_get symbols.new s ≡ slice_get symbols.old s }
        ensures symbols { IfOk result (λ n. AreNumbersOf symbols.new n.symbols resolved.now.names.items) }
        ensures count { IfOk result (λ n. n.count ≡ length symbols.new) }
        ensures grown { length symbols.old ≤ length symbols.new }
        ensures few { length symbols.new ≤ max (length symbols.old) (length other.now.symbols + length resolved.now.names.items) }
    {
        let mut in_use = other.in_use(alloc, symbols.len())?;
        let numbers = symbols_beside(alloc, symbols, &mut in_use, resolved)?;
        Self::with_symbols(alloc, numbers, symbols.len())
    }

    /// Which of so many symbols the policy's names use.
    fn in_use(&self, alloc: A, count: usize) -> Result<InUse<A>, AllocError>
        requires { self.now.count ≤ count }
        ensures long { IfOk result (λ marks. length marks ≡ count) }
        ensures used { IfOk result (λ marks. AreUsed marks self.now.symbols) }
        ensures count { IfOk result (λ marks. used_in marks ≡ length self.now.symbols) }
    {
        let mut marks = Vec::with_capacity(alloc, count)?;
        for local in &self.locals {
            marks.push(local.is_some())?;
        }
        pad(&mut marks, count)?;
        Ok(InUse::new(marks))
    }

    /// The numbering of a policy among the symbols. A name of it that has no symbol becomes the last of them, and all others keep
    /// their numbers, also where memory runs out.
    pub fn of(
        alloc: A,
        symbols: &mut Symbols<A>,
        resolved: &Resolved<A>,
    ) -> Result<Self, AllocError>
        ensures grown { (more : List (List ℕ)) × (symbols.new ≡ symbols.old ++ more) }
        ensures ok { OnOk result (symbols.new ≡ fold with_name symbols.old resolved.now.names.items) }
        ensures symbols { IfOk result (λ n. AreNumbersOf symbols.new n.symbols resolved.now.names.items) }
        ensures count { IfOk result (λ n. n.count ≡ length symbols.new) }
    {
        let numbers = symbols_of(alloc, symbols, resolved)?;
        Self::with_symbols(alloc, numbers, symbols.len())
    }

    /// The numbering with these symbols, of so many.
    fn with_symbols(alloc: A, symbols: Vec<usize, A>, count: usize) -> Result<Self, AllocError>
        requires apart { AreApart symbols.items }
        requires below { (k s : ℕ) → slice_get symbols.items k ≡ Some s → s < count }
        ensures symbols { IfOk result (λ n. n.symbols ≡ symbols.items) }
        ensures count { IfOk result (λ n. n.count ≡ count) }
    {
        let mut locals = vec![in alloc; None; count]?;
        for (local, symbol) in symbols.iter().enumerate() {
            locals[*symbol] = Some(local);
        }
        Ok(Numbering { symbols, locals })
    }
}

impl<A: Allocator> Numbering<A> {
    /// How many names the policy has.
    pub fn len(&self) -> usize
        ensures len { result ≡ length self.now.symbols }
        ensures apart { AreApart self.now.symbols }
    {
        self.symbols.len()
    }

    /// The symbol of a name by its number in the policy. It takes the same time in every policy.
    pub fn symbol(&self, local: usize) -> Option<usize>
        ensures symbol { result ≡ slice_get self.now.symbols local }
        ensures below { IfSome result (λ s. s < self.now.count) }
    {
        let symbol = self.symbols.get(local)?;
        Some(*symbol)
    }

    /// The number that the policy has for a symbol, if it has its name. It takes the same time in every policy.
    pub fn local(&self, symbol: usize) -> Option<usize>
        ensures { (k : ℕ) → (result ≡ Some k) ↔ (slice_get self.now.symbols k ≡ Some symbol) }
    {
        match self.locals.get(symbol) {
            Some(local) => *local,
            None => None,
        }
    }
}
