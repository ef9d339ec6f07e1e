//! Positions of statements.

ghost use Rattle.std.specs.Prelude.{◌≡◌, ◌++◌, ◌∷◌, [], false, position, OnOk};
ghost use Rattle.std.specs.Cmp.Rules.{hashing};
ghost use Rattle.std.specs.Hash as fed;
ghost use Rattle.std.specs.List.{list_any};
ghost use Rattle.std.proofs.Common.{rules};
ghost use Rattle.cil_matching.specs.Spot.{same_spot, spot_cmp, spot_of};

use cil_names::Seed;
use indexmap::IndexSet;
use std::alloc::{AllocError, Allocator, Global};
use std::cmp::Ordering;
use std::hash::{Hash, Hasher};
use std::marker::Model;

/// Where a statement stands: the name of its module, and the offset in the module's text.
#[derive(Clone, Copy, PartialEq, Eq)]
pub struct Position<'r> {
    pub module: &'r [u8],
    pub offset: u32,
}

impl<'r> Hash for Position<'r> {
    ghost hash_input = { λ position. position.module.now ∷ fed.u32 position.offset };

    ghost respects_eq = { Prim.search (hashing, rules) };

    fn hash<H: Hasher>(&self, state: &mut H) {
        state.write(self.module);
        state.write_u32(self.offset);
    }
}

impl Position<'_> {
    /// The order by the names of the modules, and then the offsets.
    pub fn order(self, other: Position<'_>) -> Ordering
        ensures { result ≡ spot_cmp (spot_of self.entry) (spot_of other.entry) }
    {
        self.module
            .cmp(other.module)
            .then(self.offset.cmp(&other.offset))
    }
}

/// Positions, each of which finds its place among them. Contracts see it as the list of them.
#[derive(Drop)]
pub struct Positions<'r, A: Allocator = Global> {
    positions: IndexSet<Position<'r>, Seed, A>,
}

impl<'r, A: Allocator> Model for Positions<'r, A> {
    ghost use Rattle.std.specs.Prelude.{List, map};
    ghost use Rattle.cil_matching.specs.Spot.{Spot, spot_of};

    ghost Value = { List Spot };

    ghost view = { λ p. map spot_of p.positions.keys };
}

impl<'r, A: Allocator + Copy> Positions<'r, A> {
    /// No positions, in a table that is hashed by a seed. It takes no memory.
    pub fn new(alloc: A, seed: Seed) -> Self
        ensures { result ≡ [] }
    {
        Positions {
            positions: IndexSet::with_hasher(alloc, seed),
        }
    }

    /// Puts a new position last.
    pub fn add(&mut self, position: Position<'r>) -> Result<(), AllocError>
        requires { list_any (same_spot (spot_of position)) self.old ≡ false }
        ensures { OnOk result (self.new ≡ self.old ++ spot_of position.entry ∷ []) }
    {
        self.positions.insert(position)?;
        Ok(())
    }
}

impl<'r, A: Allocator> Positions<'r, A> {
    /// The place of a position. It takes no memory.
    pub fn find(&self, wanted: Position<'_>) -> Option<usize>
        ensures { result ≡ position (same_spot (spot_of wanted.entry)) self.now }
    {
        self.positions.get_index_of(&wanted)
    }
}
