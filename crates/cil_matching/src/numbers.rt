//! The numbers of one policy's names in another one, with how many of the first are alike in both.

ghost use Rattle.std.specs.Prelude.{◌≡◌, ◌↔◌, ◌<◌, ℕ, slice_get, Some};
ghost use Rattle.cil_matching.specs.Content.{is_number_of};

use std::marker::Model;

/// For each name of an old policy its number in a new one, if that has the name. The first names have their old numbers, as long as no
/// name came or went in front of them, and are compared without a look at the list.
/// Contracts see it as the list.
#[derive(Drop)]
pub struct Numbers<'n> {
    list: &'n [Option<usize>],
    steady: usize,
}

impl<'n> Model for Numbers<'n> {
    ghost use Rattle.std.specs.Prelude.{◌≡◌, ◌<◌, ℕ, List, Option, Some, slice_get};

    ghost Value = { List (Option ℕ) };

    ghost view = { λ n. n.list.now };

    ghost invariant = { λ n. (a : ℕ) → a < n.steady → slice_get n.list.now a ≡ Some (Some a) };
}

/// How many of the first names have their old numbers.
fn steady(list: &[Option<usize>]) -> usize
    ensures { (a : ℕ) → a < result → slice_get list.now a ≡ Some (Some a) }
{
    for (i, number) in list.iter().enumerate() {
        let Some(j) = *number else { return i };
        if j != i {
            return i;
        }
    }
    list.len()
}

/// The number that a list has for a name.
fn number_at(list: &[Option<usize>], a: usize) -> Option<usize>
    ensures { (b : ℕ) → (result ≡ Some b) ↔ (slice_get list.now a ≡ Some (Some b)) }
{
    match list.get(a) {
        Some(number) => *number,
        None => None,
    }
}

impl<'n> Numbers<'n> {
    /// The numbers in a list.
    pub fn of(list: &'n [Option<usize>]) -> Self
        ensures { result ≡ list.now }
    {
        Numbers {
            list,
            steady: steady(list),
        }
    }

    /// The number in the new policy of a name of the old one.
    pub fn number(&self, a: usize) -> Option<usize>
        ensures { (b : ℕ) → (result ≡ Some b) ↔ (slice_get self.now a ≡ Some (Some b)) }
    {
        number_at(self.list, a)
    }
}

/// Whether a name of the old policy has this number in the new one.
#[inline(always)]
pub fn is_number(numbers: &Numbers<'_>, a: usize, b: usize) -> bool
    ensures { result ≡ is_number_of numbers.now a b }
{
    if a < numbers.steady {
        return a == b;
    }
    match numbers.list.get(a) {
        Some(Some(number)) => *number == b,
        _ => false,
    }
}
