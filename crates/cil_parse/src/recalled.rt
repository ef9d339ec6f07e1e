//! Names by numbers, of which those that came last are found without a hash.

ghost use Rattle.std.specs.Prelude.{◌≡◌, ◌<◌, [], IsTrue, IfOk, OnOk, OnErr, map, not, slice_get, Some};
ghost use Rattle.cil_specs.specs.Lookup.{has_name, with_name};

use cil_names::{Name, Names, Seed};
use std::alloc::{AllocError, Allocator, Global};
use std::marker::Model;

/// How many numbers are noted.
const PLACES: usize = 256;

/// Distinct names, each with its number, as `Names` has them. Most words of a text came shortly before, as its
/// classes and permissions: the numbers of those that came last are noted, each at a place that a few of its bytes
/// tell. Contracts see it as the list of names.
#[derive(Drop)]
pub struct RecalledNames<'a, A: Allocator = Global> {
    names: Names<'a, A>,
    noted: [usize; PLACES],
}

impl<'a, A: Allocator> Model for RecalledNames<'a, A> {
    ghost use Rattle.std.specs.Prelude.{List, ℕ};

    ghost Value = { List (List ℕ) };

    ghost view = { λ s. s.names };

    ghost invariant = { λ _. Unit {0} };
}

/// The place of a name among those that are noted.
fn place_of(name: &[u8]) -> usize
    ensures { result < 256 }
{
    let [first, .., last] = name else {
        return 0;
    };
    let middle = name[name.len() / 2];
    let ends = *first as usize * 31 + *last as usize;
    (name.len() % PLACES * 67 + ends + middle as usize * 10) % PLACES
}

impl<'a, A: Allocator + Copy> RecalledNames<'a, A> {
    /// No names. It takes no memory.
    pub fn new(alloc: A, seed: Seed) -> Self
        ensures { result ≡ [] }
    {
        RecalledNames {
            names: Names::new(alloc, seed),
            noted: [0; PLACES],
        }
    }
}

impl<'a, A: Allocator> RecalledNames<'a, A> {
    /// Whether a number is that of a name.
    fn has_number(&self, number: usize, name: &[u8]) -> bool
        ensures { IsTrue result → slice_get self.now number ≡ Some name.now }
    {
        match self.names.name(number) {
            Some(known) => known == name,
            None => false,
        }
    }

    /// The number of a name, the next one where it is new, with whether it is.
    pub fn insert(&mut self, name: &'a [u8]) -> Result<(usize, bool), AllocError>
        ensures number { IfOk result (λ found. slice_get self.new found.0 ≡ Some name.now) }
        ensures added { IfOk result (λ found. found.1 ≡ not (has_name self.old name.now)) }
        ensures ok { OnOk result (self.new ≡ with_name self.old name.now) }
    {
        let place = place_of(name);
        let noted = self.noted[place];
        if self.has_number(noted, name) {
            return Ok((noted, false));
        }
        let (number, new) = self.names.insert(name)?;
        self.noted[place] = number;
        Ok((number, new))
    }

    /// The names in the order of their numbers.
    pub fn as_slice(&self) -> &[Name<'a>]
        ensures { map (λ name. name.text.now) result.now ≡ self.now }
    {
        self.names.as_slice()
    }
}
