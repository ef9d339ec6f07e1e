//! Set statements of two policies that say the same, by the numbers of their names.

ghost use Rattle.std.specs.Prelude.{◌≡◌};
ghost use Rattle.cil_matching.specs.Content.{is_element_by, is_set_by};

use crate::numbers::{Numbers, is_number};
use crate::same_content::is_element;
use cil_resolve::NumberedSet;
use std::alloc::Allocator;

/// Whether a set statement of the old policy says what one of the new policy says, by the numbers that
/// the new policy gives the old one's names.
pub fn is_same_set<A: Allocator>(
    numbers: &Numbers<'_>,
    set: &NumberedSet<A>,
    other: &NumberedSet<A>,
) -> bool
    ensures { result ≡ is_set_by numbers.now set.now other.now }
{
    let attribute = is_number(numbers, set.attribute, other.attribute);
    let says = set.expression.is_same(
        &other.expression,
        |x, y|
            ensures { result ≡ is_element_by numbers.entry.now x y }
        { is_element(numbers, x, y) },
    );
    attribute & says
}
