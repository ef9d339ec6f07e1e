//! The classes in which rules of permission sets share a permission, kept once they are worked out.

ghost use Rattle.std.specs.Prelude.{◌≡◌, [], slice_get, All, Some, IfOk, IfSome, OnOk};
ghost use Rattle.cil_violations.specs.Known.{AreClasses, IsOfAllowed, IsOfSets};
ghost use Rattle.cil_violations.specs.declared.search.Search.{Search};

use std::alloc::{AllocError, Allocator};

/// A rule of a permission set by its place, and the number of that set's name.
#[derive(Clone, Copy)]
pub struct SetRule {
    pub place: usize,
    pub set: usize,
}

/// The classes in which neverallow rules of a permission set share a permission with allow rules of
/// another: all rules of a set give the same.
#[derive(Drop)]
pub struct SharedClasses<A: Allocator> {
    pub never: usize,
    pub allowed: usize,
    pub classes: Vec<usize, A>,
}

/// For each permission set of allow rules the classes that were worked out for it last, and by the number
/// of a set the place where they stand, if they do.
#[derive(Drop)]
pub struct Known<A: Allocator> {
    pub places: Vec<usize, A>,
    pub lists: Vec<SharedClasses<A>, A>,
}

impl<A: Allocator + Copy> Known<A> {
    /// No classes, with room for the sets among so many names.
    pub fn none(alloc: A, names: usize) -> Result<Self, AllocError>
        ensures { IfOk result (λ known. known.lists.items ≡ []) }
    {
        Ok(Known {
            places: vec![in alloc; 0; names]?,
            lists: Vec::new(alloc),
        })
    }
}

impl<A: Allocator> Known<A> {
    /// The place of the classes of a set of allow rules.
    fn place_of(&self, allowed: usize) -> Option<usize>
        ensures { IfSome result (IsOfAllowed self.now.lists.items allowed) }
    {
        let place = *self.places.get(allowed)?;
        let shared = self.lists.get(place)?;
        if shared.allowed == allowed {
            Some(place)
        } else {
            None
        }
    }

    /// The place of the classes of a set of neverallow rules and one of allow rules.
    pub fn find(&self, never: usize, allowed: usize) -> Option<usize>
        ensures { IfSome result (IsOfSets self.now.lists.items never allowed) }
    {
        let place = self.place_of(allowed)?;
        if self.lists[place].never == never {
            Some(place)
        } else {
            None
        }
    }

    /// Keeps classes in place of those of the same allow rules, and gives their place.
    pub fn keep(&mut self, shared: SharedClasses<A>) -> Result<usize, AllocError>
        ensures known { OnOk result ((s : Search A) → All (AreClasses s) self.old.lists.items
            → AreClasses s shared → All (AreClasses s) self.new.lists.items) }
        ensures place { IfOk result (λ place. slice_get self.new.lists.items place ≡ Some shared) }
    {
        if let Some(place) = self.place_of(shared.allowed) {
            self.lists[place] = shared;
            return Ok(place);
        }
        let place = self.lists.len();
        let allowed = shared.allowed;
        self.lists.push(shared)?;
        if allowed < self.places.len() {
            self.places[allowed] = place;
        }
        Ok(place)
    }
}
