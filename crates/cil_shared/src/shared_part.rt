//! Parts of vectors that several own together.

ghost use Rattle.std.specs.Prelude.{◌≡◌, ◌≤◌, ◌+◌, length, take, drop, IfOk};
ghost use Rattle.std.specs.Fmt.{debug_list};

use cil_names::in_32_bits;
use std::alloc::{AllocError, Allocator, Global};
use std::fmt::{self, Debug, Formatter, Write};
use std::marker::Model;
use std::rc::Rc;

/// A part of a vector that its parts own together: it is freed with the last of them. Contracts see it as the items of the part.
#[derive(Drop)]
pub struct SharedPart<T: Copy, A: Allocator = Global> {
    items: Rc<Vec<T, A>, A>,
    start: u32,
    end: u32,
}

impl<T: Copy, A: Allocator> Model for SharedPart<T, A> {
    ghost use Rattle.std.specs.Prelude.{◌≤◌, ◌<◌, ◌-◌, ◌^◌, List, length, take, drop};
    ghost use Rattle.std.specs.Rc.{rc_value};

    ghost Value = { List T };

    ghost view = { λ p. take (p.end - p.start) (drop p.start (rc_value p.items).items) };

    ghost invariant = { λ p. (p.start ≤ p.end) × (p.end ≤ length (rc_value p.items).items) × (p.end < 2 ^ 32) };
}

impl<T: Copy, A: Allocator + Copy> SharedPart<T, A> {
    /// All of a vector. One of 2^32 items or more is answered as out of memory.
    pub fn of(alloc: A, items: Vec<T, A>) -> Result<Self, AllocError>
        ensures { IfOk result (λ p. p ≡ items.items) }
    {
        let end = in_32_bits(items.len())?;
        Ok(SharedPart {
            items: Rc::new(alloc, items)?,
            start: 0,
            end,
        })
    }
}

impl<T: Copy, A: Allocator> SharedPart<T, A> {
    /// So many items of the part from an index on. Out of memory stands where no more owners can be counted.
    pub fn part(&self, from: usize, count: usize) -> Result<Self, AllocError>
        requires { from + count ≤ length self.now }
        ensures { IfOk result (λ p. p ≡ take count (drop from self.now)) }
    {
        let start = self.start + from as u32;
        Ok(SharedPart {
            items: self.items.clone()?,
            start,
            end: start + count as u32,
        })
    }

    /// The same part once more. Out of memory stands where no more owners can be counted.
    pub fn share(&self) -> Result<Self, AllocError>
        ensures { IfOk result (λ p. p ≡ self.now) }
    {
        Ok(SharedPart {
            items: self.items.clone()?,
            start: self.start,
            end: self.end,
        })
    }

    /// The items of the part.
    pub fn as_slice(&self) -> &[T]
        ensures { result.now ≡ self.now }
    {
        &self.items.as_slice()[self.start as usize..self.end as usize]
    }
}

impl<T: Copy + Debug, A: Allocator> Debug for SharedPart<T, A> {
    ghost debug_output = { λ p. debug_list T.debug_output p };

    fn fmt<W: Write>(&self, f: &mut Formatter<W>) -> fmt::Result {
        Debug::fmt(&self.as_slice(), f)
    }
}
