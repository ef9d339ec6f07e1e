//! Where the references of a statement lead.

ghost use Rattle.std.specs.Prelude.{◌≡◌, ◌-◌, None, length, slice_index_or};
ghost use Rattle.cil_bind.specs.Common.{leads_at};

use crate::lead::Lead;
use std::marker::Model;

/// Where the references of a statement lead, in the order of the text, by the numbers of what they look up and where that leads.
/// Contracts see it as the places.
#[derive(Drop)]
pub struct References<'p> {
    numbers: &'p [u32],
    leads: &'p [Lead],
}

impl<'p> Model for References<'p> {
    ghost use Rattle.std.specs.Prelude.{ℕ, List, Option};
    ghost use Rattle.cil_bind.specs.Binding.{leads_at};

    ghost Value = { List (Option ℕ) };

    ghost view = { λ r. leads_at r.leads.now r.numbers.now };
}

impl<'p> References<'p> {
    /// Those of numbers.
    pub fn of(numbers: &'p [u32], leads: &'p [Lead]) -> Self
        ensures { result ≡ leads_at leads.now numbers.now }
    {
        References { numbers, leads }
    }

    /// How many references there are.
    pub fn len(&self) -> usize
        ensures { result ≡ length self.now }
    {
        self.numbers.len()
    }

    /// The place that the reference of an index leads to, if it leads anywhere. One past the end leads nowhere.
    pub fn place(&self, k: usize) -> Option<u32>
        ensures { result ≡ slice_index_or self.now k None }
    {
        let number = *self.numbers.get(k)?;
        self.leads.get(number as usize)?.place()
    }

    /// The place that the last reference leads to, if there is one and it leads anywhere.
    pub fn last(&self) -> Option<u32>
        ensures { result ≡ slice_index_or self.now (length self.now - 1) None }
    {
        let last = self.len().checked_sub(1)?;
        self.place(last)
    }
}
