//! Where each name is declared first.

ghost use Rattle.std.specs.Prelude.{◌≡◌, ◌<◌, ◌∷◌, ◌^◌, ℕ, List, [], true, false, not, ◌&&◌, length, take, slice_get, IfOk, Some};
ghost use Rattle.cil_bind.specs.AboutNames.{name_places};
ghost use Rattle.cil_bind.specs.Common.{Placed, Word, twice_words, HaveDeclared, AreRows, AreNumbered, IsOnce, IsTaken, DeclareThat, is_optional_row, kinds_told, declares_name as is_declaring};

use crate::rows::Row;
use cil_lookup::Key;
use cil_parse::StatementKind;
use indexmap::IndexMap;
use std::alloc::{AllocError, Allocator, Global};
use std::hash::{BuildHasherDefault, FoldHasher};

/// The place of the first statement that declares a name, for each name.
#[derive(Drop)]
pub struct Declarations<A: Allocator = Global> {
    pub first: IndexMap<Key, u32, BuildHasherDefault<FoldHasher>, A>,
}

/// Whether a row and that of an earlier place aren't both optionals.
fn are_apart(row: &Row, rows: &[Row], at: usize) -> bool
    ensures { result ≡ not (row.now.is_optional && is_optional_row (slice_get rows.now at)) }
{
    match rows.get(at) {
        Some(earlier) => !(row.is_optional && earlier.is_optional),
        None => true,
    }
}

/// Whether statements of a kind declare a name.
pub fn declares_name(kind: StatementKind) -> bool
    ensures { result ≡ is_declaring kind }
{
    matches!(
        kind,
        StatementKind::Block
            | StatementKind::Optional
            | StatementKind::TypeName
            | StatementKind::TypeAlias
            | StatementKind::TypeAttribute
            | StatementKind::Common
            | StatementKind::Class
            | StatementKind::ClassPermission
    )
}

impl<A: Allocator + Copy> Declarations<A> {
    /// Takes up what the row at a place declares, if it declares a name. True if its name is declared already, but where both are
    /// optionals.
    fn declare(&mut self, rows: &[Row], i: usize) -> Result<bool, AllocError>
        requires within { i < length rows.now }
        requires few { length rows.now < 2 ^ 32 }
        ensures { IfOk result (λ again. (names spaces : List (List ℕ)) (policy : List Placed) → AreNumbered names spaces → AreRows names spaces rows.now policy
            → HaveDeclared names spaces self.old.first.entries (take i policy) → IsOnce (take i policy)
            → (s : Placed) → slice_get policy i ≡ Some s → IsTaken names spaces (take i policy) s self.new.first.entries again) }
    {
        let row = rows[i];
        let Some((table, word)) = row.declares else {
            return Ok(false);
        };
        let key = Key {
            table,
            namespace: row.namespace,
            word,
        };
        if let Some(earlier) = self.first.get(&key) {
            return Ok(are_apart(&row, rows, *earlier as usize));
        }
        self.first.insert(key, i as u32)?;
        Ok(false)
    }
}

/// What rows declare: each name once, or the place of the first row whose name is declared already.
#[derive(Drop)]
pub enum Declared<A: Allocator = Global> {
    Once(Declarations<A>),
    Twice(usize),
}

impl<A: Allocator + Copy> Declarations<A> {
    /// What rows declare, with room for so many names. The rows about names have these places.
    pub fn of(
        alloc: A,
        room: usize,
        rows: &[Row],
        places: &[u32],
    ) -> Result<Declared<A>, AllocError>
        requires few { length rows.now < 2 ^ 32 }
        requires places { places.now ≡ name_places 0 (kinds_told rows.now) }
        ensures { IfOk result (λ found. (names spaces : List (List ℕ)) (policy : List Placed) → AreNumbered names spaces → AreRows names spaces rows.now policy
            → DeclareThat names spaces policy found) }
    {
        let mut declarations = Declarations {
            first: IndexMap::with_capacity(alloc, room)?,
        };
        for k in 0..places.len() {
            let i = places[k] as usize;
            if declarations.declare(rows, i)? {
                return Ok(Declared::Twice(i));
            }
        }
        Ok(Declared::Once(declarations))
    }

    /// What rows declare that are known to declare each name once, with room for so many names. The rows about names have these places.
    pub fn of_once(alloc: A, room: usize, rows: &[Row], places: &[u32]) -> Result<Self, AllocError>
        requires few { length rows.now < 2 ^ 32 }
        requires places { places.now ≡ name_places 0 (kinds_told rows.now) }
        ensures { IfOk result (λ d. (names spaces : List (List ℕ)) (policy : List Placed) → AreNumbered names spaces → AreRows names spaces rows.now policy → IsOnce policy
            → HaveDeclared names spaces d.first.entries policy) }
    {
        let mut declarations = Declarations {
            first: IndexMap::with_capacity(alloc, room)?,
        };
        for k in 0..places.len() {
            declarations.declare(rows, places[k] as usize)?;
        }
        Ok(declarations)
    }
}
