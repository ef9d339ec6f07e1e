//! What the references of a module's statements look up.

ghost use Rattle.std.specs.Prelude.{◌≡◌, ◌∷◌, [], length, IfOk, OnOk};
ghost use Rattle.cil_parse.specs.Common.{cited, citation_lists, AreCitedBy, Finds, IsFound};

use crate::lists::Lists;
use crate::row::{NumberedWord, Row};
use crate::table::Table;
use cil_names::{Seed, in_32_bits};
use indexmap::IndexSet;
use std::alloc::{AllocError, Allocator, Global};

/// What a reference looks up: a text by its number, in a table, from inside a block of the module. The number of a block is its index
/// and 1 more; 0 stands for none.
#[derive(Clone, Copy, PartialEq, Eq, Hash)]
pub struct Citation {
    pub table: Table,
    pub block: u32,
    pub text: u32,
}

/// What the references of statements look up, each once, and for each statement the numbers of what its references look up, in the
/// order of the text.
#[derive(Drop)]
pub struct Citations<A: Allocator = Global> {
    pub distinct: Vec<Citation, A>,
    pub numbers: Lists<u32, A>,
}

/// What the references of the statements so far look up, each once, and for each statement the numbers of that.
#[derive(Drop)]
struct Found<A: Allocator = Global> {
    distinct: IndexSet<Citation, Seed, A>,
    numbers: Lists<u32, A>,
}

impl<A: Allocator + Copy> Found<A> {
    /// Puts the number of what a reference looks up at the end of the open list.
    fn push(&mut self, citation: Citation) -> Result<(), AllocError>
        ensures { OnOk result (Finds self.old self.new (citation ∷ [])) }
    {
        let (n, _new) = self.distinct.insert_full(citation)?;
        self.numbers.push(in_32_bits(n)?)?;
        Ok(())
    }

    /// Puts the numbers of what the references of a statement with these words look up at the end of the open list.
    fn push_cited(&mut self, row: &Row, words: &[NumberedWord]) -> Result<(), AllocError>
        ensures { OnOk result (Finds self.old self.new (cited row.now 0 words.now)) }
    {
        for (k, word) in words.iter().enumerate() {
            if let Some(table) = row.kind.referring(k) {
                self.push(Citation {
                    table,
                    block: row.around.block,
                    text: word.text,
                })?;
            }
        }
        Ok(())
    }

    /// Puts a list with those of each statement behind the others.
    fn push_lists(&mut self, rows: &[Row], words: &Lists<NumberedWord, A>) -> Result<(), AllocError>
        requires { length words.now.0 ≡ length rows.now }
        ensures { OnOk result (IsFound self.old [] [] → IsFound self.new (citation_lists rows.now words.now.0) []) }
    {
        for i in 0..rows.len() {
            self.push_cited(&rows[i], words.get(i))?;
            self.numbers.close()?;
        }
        Ok(())
    }
}

impl<A: Allocator + Copy> Citations<A> {
    /// Those of statements with these words.
    pub fn of(
        alloc: A,
        seed: Seed,
        rows: &[Row],
        words: &Lists<NumberedWord, A>,
    ) -> Result<Self, AllocError>
        requires { length words.now.0 ≡ length rows.now }
        ensures { IfOk result (λ c. AreCitedBy c rows.now words.now.0) }
    {
        let numbers = Lists::with_capacity(alloc, rows.len(), 0)?;
        let mut found = Found {
            distinct: IndexSet::with_hasher(alloc, seed),
            numbers,
        };
        found.push_lists(rows, words)?;
        found.numbers.shrink_to_fit();
        Ok(Citations {
            distinct: Vec::from_slice(alloc, found.distinct.as_slice())?,
            numbers: found.numbers,
        })
    }
}
