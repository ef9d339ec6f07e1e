//! An allocator that refuses growths, for tests.
#![tactic(auto)]

use std::alloc::{AllocError, Allocator};
use std::cell::Cell;

/// Which growths are refused, and how many were.
#[derive(Drop)]
struct Growths {
    left: Cell<u64>,
    all_behind: Cell<bool>,
    refused: Cell<u64>,
}

/// A heap, but for the growths that it refuses, which it counts.
pub struct Refusing<A: Allocator> {
    heap: A,
    growths: Growths,
}

impl<A: Allocator> Refusing<A> {
    /// It refuses none.
    pub fn new(heap: A) -> Refusing<A> {
        Refusing {
            heap,
            growths: Growths {
                left: Cell::new(0),
                all_behind: Cell::new(false),
                refused: Cell::new(0),
            },
        }
    }

    /// Refuses the nth growth from now on, counted from 1, alone; 0 refuses none.
    pub fn refuse(&self, nth: u64) {
        self.growths.left.set(nth);
        self.growths.all_behind.set(false);
    }

    /// Refuses the nth growth from now on and all behind it; 0 refuses none.
    pub fn refuse_from(&self, nth: u64) {
        self.growths.left.set(nth);
        self.growths.all_behind.set(nth > 0);
    }

    /// How many growths it refused so far.
    pub fn refused(&self) -> u64 {
        self.growths.refused.get()
    }
}

impl<A: Allocator> Drop for Refusing<A> {
    fn drop(self) {
        let Refusing {
            heap: _,
            growths: _,
        } = self;
    }
}

/// Counts a growth down, and says whether it is refused.
fn is_refused(growths: &Growths) -> bool {
    let left = growths.left.get();
    let is = left == 1;
    if left > 1 || (is && !growths.all_behind.get()) {
        growths.left.set(left - 1);
    }
    if is {
        growths.refused.set(growths.refused.get().saturating_add(1));
    }
    is
}

unsafe impl<A: Allocator> Allocator for Refusing<A> {
    // A block is the heap's, so the right to free it is too.
    ghost dealloc_token = { λ refusing. A.dealloc_token refusing.heap };

    fn allocate(&self, size: usize, align: usize) -> Result<*mut u8, AllocError> {
        if is_refused(&self.growths) {
            Err(AllocError)
        } else {
            self.heap.allocate(size, align)
        }
    }

    unsafe fn deallocate(&self, ptr: *mut u8, size: usize, align: usize) {
        self.heap.deallocate(ptr, size, align);
    }
}
