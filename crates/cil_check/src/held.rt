//! Lists of permissions that classes are known to have.

ghost use Rattle.std.specs.Prelude.{◌≡◌, ℕ, Bool, true, IsTrue};
ghost use Rattle.cil_check.specs.Recent.{AreHeld, is_held};

use cil_bind::PermissionList;
use std::alloc::{Allocator, Global};

/// How many lists are at hand.
const HELD: usize = 2048;

/// A list of permissions, by the number of its module and its own, and the place of a class that has
/// all of them.
#[derive(Clone, Copy)]
pub struct Held {
    pub module: u32,
    pub list: usize,
    pub owner: u32,
}

impl Held {
    /// Whether this is the list, and the class.
    fn is(&self, list: PermissionList, class: u32) -> bool
        ensures { result ≡ is_held self.now list.«module» list.list class }
    {
        self.owner == class && self.list == list.list && self.module == list.module
    }
}

/// Lists that classes are known to have, of those that were asked lately. Each of these has one
/// slot, where another may stand.
#[derive(Drop)]
pub struct HeldLists<A: Allocator = Global> {
    pub slots: Vec<Option<Held>, A>,
}

/// The slot of a list and a class.
fn slot_of(list: PermissionList, class: u32) -> usize {
    (list.list % HELD * 31 + class as usize) % HELD
}

/// Slots without lists. Where memory runs out there is none.
fn empty_slots<A: Allocator + Copy>(alloc: A) -> Vec<Option<Held>, A>
    ensures { (holds : ℕ → ℕ → ℕ → Bool) → AreHeld holds result.items }
{
    match vec![in alloc; None; HELD] {
        Ok(slots) => slots,
        Err(_) => Vec::new(alloc),
    }
}

impl<A: Allocator + Copy> HeldLists<A> {
    /// Nothing.
    pub fn new(alloc: A) -> Self
        ensures { (holds : ℕ → ℕ → ℕ → Bool) → AreHeld holds result.slots.items }
    {
        HeldLists {
            slots: empty_slots(alloc),
        }
    }

    /// Whether a class is known to have a list.
    #[inline(always)]
    pub fn knows(&self, list: PermissionList, class: u32) -> bool
        ensures { IsTrue result → (holds : ℕ → ℕ → ℕ → Bool) → AreHeld holds self.now.slots.items
            → holds list.«module» list.list class ≡ true }
    {
        match self.slots.get(slot_of(list, class)) {
            Some(Some(last)) => last.is(list, class),
            _ => false,
        }
    }

    /// Takes up a list that a class has, in the place of the one in its slot.
    pub fn note(&mut self, list: PermissionList, class: u32)
        ensures { (holds : ℕ → ℕ → ℕ → Bool) → holds list.«module» list.list class ≡ true
            → AreHeld holds self.old.slots.items → AreHeld holds self.new.slots.items }
    {
        if let Some(last) = self.slots.get_mut(slot_of(list, class)) {
            *last = Some(Held {
                module: list.module,
                list: list.list,
                owner: class,
            });
        }
    }
}
