//! Where references lead.

ghost use Rattle.std.specs.Prelude.{◌≡◌, None, IfOk};

use std::alloc::AllocError;
use std::marker::Model;

/// Stands for nowhere. It is the place of no statement, since there are fewer than 2^32.
const NOWHERE: u32 = u32::MAX;

/// Where a reference leads: the place of a declaration, or nowhere. It takes 4 bytes. Contracts see it as the place, if there is one.
#[derive(Clone, Copy)]
pub struct Lead {
    place: u32,
}

impl Model for Lead {
    ghost use Rattle.std.specs.Prelude.{ℕ, Option};
    ghost use Rattle.cil_bind.specs.Lead.{place_of, told_by, told_by-place_of};

    ghost Value = { Option ℕ };

    ghost view = { λ l. place_of l.place };

    ghost inverse = { λ place. record { place = told_by place } };

    ghost inverse_ok = { λ l h i. record { place = told_by-place_of l.place i } };
}

impl Lead {
    /// A lead to nowhere.
    pub fn nowhere() -> Lead
        ensures { result ≡ None }
    {
        Lead { place: NOWHERE }
    }

    /// A lead to a place, or nowhere. The place 4294967295 can't be told, and is answered as out of memory.
    pub fn of(place: Option<u32>) -> Result<Lead, AllocError>
        ensures { IfOk result (λ lead. lead ≡ place) }
    {
        match place {
            Some(NOWHERE) => Err(AllocError),
            Some(place) => Ok(Lead { place }),
            None => Ok(Lead::nowhere()),
        }
    }

    /// The place, if the reference leads anywhere.
    pub fn place(self) -> Option<u32>
        ensures { result ≡ self }
    {
        if self.place == NOWHERE {
            return None;
        }
        Some(self.place)
    }
}
