//! What was taken by its names.

ghost use Rattle.std.specs.Prelude.{◌≡◌};

use crate::piece::Piece;
use cil_names::{Names, Seed};
use std::alloc::{AllocError, Allocator, Global};
use std::marker::Model;

/// The statements that were taken by their names: how many, their first words, and how many have each of these.
#[derive(Drop)]
pub struct Tally<'m, A: Allocator = Global> {
    keywords: Names<'m, A>,
    numbers: Vec<u64, A>,
    statements: u64,
}

impl<'m, A: Allocator> Model for Tally<'m, A> {
    ghost use Rattle.std.specs.Prelude.{◌≡◌, length};
    ghost use Rattle.cil_projection.specs.Statements.{Counts};

    ghost Value = { Counts };

    ghost view = { λ s. record { keywords = s.keywords; numbers = s.numbers.items; statements = s.statements } };

    ghost invariant = { λ s. length s.keywords ≡ length s.numbers.items };
}

impl<'m, A: Allocator + Copy> Tally<'m, A> {
    ghost use Rattle.std.specs.Prelude.{◌≡◌};
    ghost use Rattle.cil_projection.specs.Statements.{no_counts};

    /// None. It takes no memory.
    pub fn new(alloc: A, seed: Seed) -> Self
        ensures { result ≡ no_counts }
    {
        Tally {
            keywords: Names::new(alloc, seed),
            numbers: Vec::new(alloc),
            statements: 0,
        }
    }
}

impl<'m, A: Allocator> Tally<'m, A> {
    ghost use Rattle.std.specs.Prelude.{◌≡◌, None, OnOk, bytes_eq, fold, length, position};
    ghost use Rattle.cil_projection.specs.Pieces.{piece_of, pieces_of, taken};
    ghost use Rattle.cil_projection.specs.Statements.{counted, number_of};

    /// How many statements there are, or the greatest number where there are more.
    pub fn statements(&self) -> u64
        ensures { result ≡ self.now.statements }
    {
        self.statements
    }

    /// Of how many kinds they are.
    pub fn kinds(&self) -> usize
        ensures { result ≡ length self.now.keywords }
    {
        self.keywords.len()
    }

    /// How many of them have this first word, or the greatest number where there are more.
    pub fn number(&self, keyword: &[u8]) -> u64
        ensures { result ≡ number_of self.now keyword.now }
    {
        let Some(place) = self.keywords.find(keyword) else {
            return 0;
        };
        self.numbers[place]
    }

    /// Counts a statement with a first word that none had yet.
    fn append(&mut self, keyword: &'m [u8]) -> Result<(), AllocError>
        requires { position (bytes_eq keyword.now) self.old.keywords ≡ None }
        ensures { OnOk result (self.new ≡ counted self.old (taken keyword.now)) }
    {
        self.numbers.reserve(1)?;
        let (_place, new) = self.keywords.insert(keyword)?;
        self.statements = self.statements.saturating_add(1);
        if new {
            self.numbers.push(1)?;
        }
        Ok(())
    }

    /// Counts a statement with this first word.
    fn add(&mut self, keyword: &'m [u8]) -> Result<(), AllocError>
        ensures { OnOk result (self.new ≡ counted self.old (taken keyword.now)) }
    {
        let Some(place) = self.keywords.find(keyword) else {
            return self.append(keyword);
        };
        self.numbers[place] = self.numbers[place].saturating_add(1);
        self.statements = self.statements.saturating_add(1);
        Ok(())
    }

    /// Counts a piece.
    fn count(&mut self, piece: Piece<'m>) -> Result<(), AllocError>
        ensures { OnOk result (self.new ≡ counted self.old (piece_of piece.entry)) }
    {
        if let Piece::Taken { keyword } = piece {
            self.add(keyword)?;
        }
        Ok(())
    }

    /// Counts pieces.
    pub(crate) fn count_all(&mut self, pieces: &[Piece<'m>]) -> Result<(), AllocError>
        ensures { OnOk result (self.new ≡ fold counted self.old (pieces_of pieces.now)) }
    {
        let mut rest = pieces;
        while let [first, behind @ ..] = rest {
            self.count(*first)?;
            rest = behind;
        }
        Ok(())
    }
}
