//! Classes of too many permissions.

ghost use Rattle.std.specs.Prelude.{◌≡◌, List, Some, slice_get};
ghost use Rattle.cil_check.specs.Common.{Placed, classes, has_too_many, too_many_words, IsFirstOf, IsSeen, Reads, IsNoted};

use crate::bound::Seen;
use crate::checker::Checker;
use crate::few::Few;
use cil_parse::{NumberedWord, StatementKind};
use std::alloc::Allocator;

impl<'p, 'm, A: Allocator> Checker<'p, 'm, A> {
    /// Whether the class of a place has more than 32 permissions, its commons' included, each counted once. It looks at no more than 33 of
    /// its own, and at no more than 33 of each common.
    fn has_too_many(&self, class: u32) -> bool
        requires { (policy : List Placed) × (s : Placed) × IsNoted self.now policy × (slice_get policy class ≡ Some s) }
        ensures { (policy : List Placed) (s : Placed) → IsNoted self.now policy → slice_get policy class ≡ Some s → IsFirstOf classes policy class → result ≡ has_too_many policy s }
    {
        let mut few = Few::new();
        few.insert_all(self.permissions.words.get(class as usize));
        for common in self.inherited.get(class) {
            few.insert_all(self.permissions.words.get(*common as usize));
        }
        few.is_over()
    }

    /// The name of the class that the statement at a place declares, if it has more than 32 permissions.
    pub fn too_many_word(&self, place: usize, seen: &Seen<'p, 'm, A>) -> Option<NumberedWord>
        requires { (policy : List Placed) × (s : Placed) × IsNoted self.now policy × (slice_get policy place ≡ Some s) }
        ensures { (policy : List Placed) (s : Placed) → IsNoted self.now policy → IsSeen seen.now policy s → slice_get policy place ≡ Some s → Reads seen.now result (slice_get (too_many_words policy s) 0) }
    {
        match seen.view.kind {
            StatementKind::Class => {
                if self.has_too_many(place as u32) {
                    seen.word(0)
                } else {
                    None
                }
            }
            _ => None,
        }
    }
}
