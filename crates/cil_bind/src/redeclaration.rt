//! Names that are declared again.

ghost use Rattle.std.specs.Prelude.{◌≡◌, Some};
ghost use Rattle.cil_bind.specs.Common.{Word, Placed, declared_in, IsFrom, IsTold};
ghost use Rattle.cil_specs.specs.Lookup as lookup;

use crate::joined::Joined;
use crate::rows::Row;
use cil_text::Place;
use std::alloc::Allocator;

/// A name where it is declared again: the name of the module, the word and where it stands.
#[derive(Clone, Copy)]
pub struct Redeclaration<'m> {
    pub module: &'m [u8],
    pub at: Place,
    pub word: &'m [u8],
}

impl<'m> Redeclaration<'m> {
    /// The name that the statement of a row declares.
    pub fn of<A: Allocator>(joined: &Joined<'m, A>, row: &Row) -> Self
        requires { (s : Placed) × (table : lookup.Table) × (word : Word) × IsFrom joined.now.modules.items row.now s × (declared_in table s.form ≡ Some word) }
        ensures { (s : Placed) (table : lookup.Table) (word : Word) → IsFrom joined.now.modules.items row.now s → declared_in table s.form ≡ Some word → IsTold result s word }
    {
        let named = &joined.modules[row.module as usize];
        let view = named.module.statement(row.index as usize);
        let Some((_, word)) = view.declared() else {
            unreachable!("a statement that declares nothing declares a name again");
        };
        Redeclaration {
            module: named.name,
            at: word.at,
            word: named.module.text(word.text as usize),
        }
    }
}
