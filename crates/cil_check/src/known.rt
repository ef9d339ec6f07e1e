//! What classes are known to have.

ghost use Rattle.std.specs.Prelude.{◌≡◌, ℕ, Bool, true, IsTrue};
ghost use Rattle.cil_check.specs.Recent.{AreHeld, AreRecent};

use crate::held::HeldLists;
use crate::permissions::Listed;
use std::alloc::{Allocator, Global};

/// How many permissions are at hand.
const RECENT: usize = 4096;

/// Lists of permissions that classes are known to have, and single permissions, of those that were
/// asked lately. Each of these has one slot, where another may stand.
#[derive(Drop)]
pub struct Known<A: Allocator = Global> {
    pub lists: HeldLists<A>,
    pub recent: Vec<Option<Listed>, A>,
}

/// The slot of a permission of a class, by the class's place and the number of the name.
fn slot_of(class: u32, word: u32) -> usize {
    (class as usize * 31 + word as usize) % RECENT
}

/// Slots without permissions. Where memory runs out there is none.
fn empty_slots<A: Allocator + Copy>(alloc: A) -> Vec<Option<Listed>, A>
    ensures { (has : ℕ → ℕ → Bool) → AreRecent has result.items }
{
    match vec![in alloc; None; RECENT] {
        Ok(slots) => slots,
        Err(_) => Vec::new(alloc),
    }
}

impl<A: Allocator + Copy> Known<A> {
    /// Nothing.
    pub fn new(alloc: A) -> Self
        ensures lists { (holds : ℕ → ℕ → ℕ → Bool) → AreHeld holds result.lists.slots.items }
        ensures recent { (has : ℕ → ℕ → Bool) → AreRecent has result.recent.items }
    {
        Known {
            lists: HeldLists::new(alloc),
            recent: empty_slots(alloc),
        }
    }

    /// Whether a class is known to have a permission.
    pub fn has(&self, class: u32, word: u32) -> bool
        ensures { IsTrue result → (has : ℕ → ℕ → Bool) → AreRecent has self.now.recent.items
            → has class word ≡ true }
    {
        match self.recent.get(slot_of(class, word)) {
            Some(Some(last)) => last.owner == class && last.word == word,
            _ => false,
        }
    }

    /// Takes up a permission that a class has, in the place of the one in its slot.
    pub fn note(&mut self, class: u32, word: u32)
        ensures lists { self.new.lists ≡ self.old.lists }
        ensures recent { (has : ℕ → ℕ → Bool) → has class word ≡ true
            → AreRecent has self.old.recent.items → AreRecent has self.new.recent.items }
    {
        if let Some(last) = self.recent.get_mut(slot_of(class, word)) {
            *last = Some(Listed { owner: class, word });
        }
    }
}
