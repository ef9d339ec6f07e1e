//! The statements of a joined policy by numbers.

ghost use Rattle.std.specs.Prelude.{◌≡◌, ◌<◌, ◌≤◌, ◌+◌, ◌++◌, ◌∷◌, ◌^◌, ℕ, suc, List, length, take, slice_get, [], IfOk, OnOk, IfNone, IfSome, Some, bytes_eq};
ghost use Rattle.cil_bind.specs.Common.{Word, IsDistinct, statement_count, Spells, Row, kinds_told};
ghost use Rattle.cil_specs.specs.Statements.{Statements, is_optional as is_optional_form};
ghost use Rattle.cil_specs.specs.Joined.{Placed, Module, placed, joined as joined_policy};
ghost use Rattle.cil_bind.specs.Scope.{StandsFor, AreSpelt, AreFrom, AreAround, HaveModule, Declares, SaysAt, optional_number, block_word as word_of_block, is_optional_kind};
ghost use Rattle.cil_bind.specs.declared.joined.NamedModule.{NamedModule};

use crate::declarations::declares_name;
use crate::joined::Joined;
use crate::rows::Row;
use crate::words::number_word;
use cil_lookup::Namespaces;
use cil_names::{Names, in_32_bits};
use cil_parse::{ParsedModule, StatementKind, Table};
use std::alloc::{AllocError, Allocator, Global};

/// The words of a policy, its namespaces and its statements, by their numbers, and the kinds of the statements.
#[derive(Drop)]
pub struct Scope<'m, A: Allocator = Global> {
    pub names: Names<'m, A>,
    pub namespaces: Namespaces<A>,
    pub rows: Vec<Row, A>,
    pub kinds: Vec<StatementKind, A>,
}

/// How many statements modules have together.
fn statement_count<A: Allocator>(joined: &Joined<'_, A>) -> usize {
    let mut count: usize = 0;
    for i in 0..joined.modules.len() {
        count = count.saturating_add(joined.modules[i].module.len());
    }
    count
}

impl<'m, A: Allocator + Copy> Scope<'m, A> {
    /// The statements of a joined policy, over words that have numbers already.
    pub fn of(alloc: A, names: Names<'m, A>, joined: &Joined<'m, A>) -> Result<Self, AllocError>
        requires distinct { IsDistinct bytes_eq names }
        requires spelt { (modules : List Module) × AreSpelt joined.now.modules.items modules }
        ensures stands { IfOk result (λ scope. (modules : List Module) → AreSpelt joined.now.modules.items modules → StandsFor scope (joined_policy modules)) }
        ensures kept { IfOk result (λ scope. (more : List (List ℕ)) × (scope.names ≡ names.entry ++ more)) }
        ensures from { IfOk result (λ scope. (modules : List Module) → AreSpelt joined.now.modules.items modules → AreFrom joined.now.modules.items scope.rows.items (joined_policy modules)) }
        ensures around { IfOk result (λ scope. (modules : List Module) → AreSpelt joined.now.modules.items modules → AreAround (joined_policy modules) 0 scope.rows.items (joined_policy modules)) }
        ensures kinds { IfOk result (λ scope. scope.kinds.items ≡ kinds_told scope.rows.items) }
    {
        let mut scope = Scope::of_names(alloc, names, statement_count(joined))?;
        scope.add_all(joined)?;
        Ok(scope)
    }

    /// Words that have numbers already and no statements, with room for so many.
    fn of_names(alloc: A, names: Names<'m, A>, room: usize) -> Result<Self, AllocError>
        ensures names { IfOk result (λ scope. scope.names ≡ names.entry) }
        ensures namespaces { IfOk result (λ scope. scope.namespaces ≡ [] ∷ []) }
        ensures rows { IfOk result (λ scope. scope.rows.items ≡ []) }
        ensures kinds { IfOk result (λ scope. scope.kinds.items ≡ []) }
    {
        let rows = Vec::with_capacity(alloc, room)?;
        let kinds = Vec::with_capacity(alloc, room)?;
        Ok(Scope {
            names,
            namespaces: Namespaces::new(alloc),
            rows,
            kinds,
        })
    }

    /// Takes up the statements of the modules of a joined policy, the first ones.
    fn add_all(&mut self, joined: &Joined<'m, A>) -> Result<(), AllocError>
        requires spelt { (modules : List Module) × AreSpelt joined.now.modules.items modules }
        requires first { self.old.rows.items ≡ [] }
        ensures stands { OnOk result ((modules : List Module) → AreSpelt joined.now.modules.items modules → StandsFor self.old [] → StandsFor self.new (joined_policy modules)) }
        ensures kept { OnOk result ((more : List (List ℕ)) × (self.new.names ≡ self.old.names ++ more)) }
        ensures from { OnOk result ((modules : List Module) → AreSpelt joined.now.modules.items modules → AreFrom joined.now.modules.items self.new.rows.items (joined_policy modules)) }
        ensures around { OnOk result ((modules : List Module) → AreSpelt joined.now.modules.items modules → AreAround (joined_policy modules) 0 self.new.rows.items (joined_policy modules)) }
        ensures kinds { OnOk result (self.old.kinds.items ≡ kinds_told self.old.rows.items
            → self.new.kinds.items ≡ kinds_told self.new.rows.items) }
    {
        for i in 0..joined.modules.len() {
            self.add(in_32_bits(i)?, joined.modules[i].module)?;
        }
        Ok(())
    }

    /// Takes up the statements of a module.
    fn add(&mut self, number: u32, module: &'m ParsedModule<A>) -> Result<(), AllocError>
        requires { (statements : Statements) × Spells «module».now statements }
        ensures stands { OnOk result ((before : List Placed) (name : List ℕ) (statements : Statements) → Spells «module».now statements
            → StandsFor self.old before → StandsFor self.new (before ++ placed name [] [] statements)) }
        ensures kept { OnOk result ((more : List (List ℕ)) × (self.new.names ≡ self.old.names ++ more)) }
        ensures from { OnOk result ((parsed : List (NamedModule _)) (before : List Placed) (name : List ℕ) (statements : Statements) → Spells «module».now statements → HaveModule parsed number «module».now name
            → AreFrom parsed self.old.rows.items before → AreFrom parsed self.new.rows.items (before ++ placed name [] [] statements)) }
        ensures around { OnOk result ((before behind : List Placed) (name : List ℕ) (statements : Statements) → Spells «module».now statements → length before ≡ length self.old.rows.items
            → AreAround (before ++ (placed name [] [] statements ++ behind)) 0 self.old.rows.items before
            → AreAround (before ++ (placed name [] [] statements ++ behind)) 0 self.new.rows.items (before ++ placed name [] [] statements)) }
        ensures kinds { OnOk result (self.old.kinds.items ≡ kinds_told self.old.rows.items
            → self.new.kinds.items ≡ kinds_told self.new.rows.items) }
    {
        let start = in_32_bits(self.rows.len())?;
        let count = in_32_bits(module.len())?;
        for i in 0..count {
            self.place(number, start, module, i)?;
        }
        Ok(())
    }

    /// What the statement of an index of a module declares. Most are of kinds that declare no name, and their words aren't looked at.
    #[inline(always)]
    fn declared(
        &mut self,
        module: &'m ParsedModule<A>,
        i: usize,
    ) -> Result<Option<(Table, u32)>, AllocError>
        requires spelt { (statements : Statements) × Spells «module».now statements }
        requires within { i < statement_count «module».now }
        ensures { IfOk result (λ found. Declares self.old self.new found (SaysAt «module».now i)) }
    {
        if !declares_name(module.kind(i)) {
            return Ok(None);
        }
        self.declared_name(module, i)
    }

    /// The same of a statement that declares a name.
    #[inline(never)]
    fn declared_name(
        &mut self,
        module: &'m ParsedModule<A>,
        i: usize,
    ) -> Result<Option<(Table, u32)>, AllocError>
        requires spelt { (statements : Statements) × Spells «module».now statements }
        requires within { i < statement_count «module».now }
        ensures { IfOk result (λ found. Declares self.old self.new found (SaysAt «module».now i)) }
    {
        let view = module.statement(i);
        let Some((table, word)) = view.declared() else {
            return Ok(None);
        };
        let number = number_word(&mut self.names, module.text(word.text as usize))?;
        Ok(Some((table, number)))
    }

    /// Takes up the statement of an index of a module whose statements begin at a place. A number that 32 bits don't hold is answered as
    /// out of memory.
    fn place(
        &mut self,
        number: u32,
        start: u32,
        module: &'m ParsedModule<A>,
        i: u32,
    ) -> Result<(), AllocError>
        requires spelt { (statements : Statements) × Spells «module».now statements }
        requires within { i < statement_count «module».now }
        ensures stands { OnOk result ((before : List Placed) (name : List ℕ) (statements : Statements) → Spells «module».now statements → length before ≡ start
            → StandsFor self.old (before ++ take i (placed name [] [] statements)) → StandsFor self.new (before ++ take (i + 1) (placed name [] [] statements))) }
        ensures kept { OnOk result ((more : List (List ℕ)) × (self.new.names ≡ self.old.names ++ more)) }
        ensures from { OnOk result ((parsed : List (NamedModule _)) (before : List Placed) (name : List ℕ) (statements : Statements) → Spells «module».now statements → HaveModule parsed number «module».now name
            → AreFrom parsed self.old.rows.items (before ++ take i (placed name [] [] statements)) → AreFrom parsed self.new.rows.items (before ++ take (i + 1) (placed name [] [] statements))) }
        ensures around { OnOk result ((before behind : List Placed) (name : List ℕ) (statements : Statements) → Spells «module».now statements → length before ≡ start
            → AreAround (before ++ (placed name [] [] statements ++ behind)) 0 self.old.rows.items (before ++ take i (placed name [] [] statements))
            → AreAround (before ++ (placed name [] [] statements ++ behind)) 0 self.new.rows.items (before ++ take (i + 1) (placed name [] [] statements))) }
        ensures kinds { OnOk result (self.old.kinds.items ≡ kinds_told self.old.rows.items
            → self.new.kinds.items ≡ kinds_told self.new.rows.items) }
    {
        let view = module.statement(i as usize);
        let Some(optional) = optional_at(start, view.optional) else {
            return Err(AllocError);
        };
        let namespace = self.around(start as usize, view.block);
        let declares = self.declared(module, i as usize)?;
        let word = block_word(view.kind, declares);
        let inside = self.namespaces.inside(namespace, word)?;
        self.rows.push(Row {
            module: number,
            index: i,
            namespace,
            inside,
            optional,
            declares,
            kind: view.kind,
            is_optional: is_optional(view.kind),
        })?;
        self.kinds.push(view.kind)?;
        Ok(())
    }

    /// The namespace around a statement of a module whose statements begin at a place, by the number of the innermost block.
    pub(crate) fn around(&self, start: usize, block: u32) -> u32
        requires { start < 2 ^ 32 }
        ensures within { result < length self.now.namespaces }
        ensures global { block ≡ 0 → result ≡ 0 }
        ensures inside { (k : ℕ) (row : Row) → block ≡ suc k → slice_get self.now.rows.items (start + k) ≡ Some row → row.inside < length self.now.namespaces → result ≡ row.inside }
    {
        prove!(self.namespaces.len() > 0);
        if block == 0 {
            return 0;
        }
        match self.rows.get(start + (block as usize - 1)) {
            Some(row) => {
                if (row.inside as usize) < self.namespaces.len() {
                    row.inside
                } else {
                    0
                }
            }
            None => 0,
        }
    }
}

/// The word of a block.
fn block_word(kind: StatementKind, declares: Option<(Table, u32)>) -> Option<u32>
    ensures { result ≡ word_of_block kind declares }
{
    match (kind, declares) {
        (StatementKind::Block, Some((_, word))) => Some(word),
        _ => None,
    }
}

/// Whether statements of a kind are optionals.
pub fn is_optional(kind: StatementKind) -> bool
    ensures { result ≡ is_optional_kind kind }
{
    matches!(kind, StatementKind::Optional)
}

/// The number of the innermost optional in the policy by that in its module, whose statements begin at a place.
fn optional_at(start: u32, optional: u32) -> Option<u32>
    ensures same { IfSome result (λ n. n ≡ optional_number start optional) }
    ensures beyond { IfNone result (2 ^ 32 ≤ start + optional) }
{
    if optional == 0 {
        return Some(0);
    }
    start.checked_add(optional)
}
