//! Plain lists of names, and the nodes that they would have.

ghost use Rattle.std.specs.Prelude.{◌≡◌, ◌↔◌, ◌∷◌, Bool, Contains, IsTrue, List, MatchOption};
ghost use Rattle.std.specs.List.{list_any};
ghost use Rattle.cil_parse.specs.declared.row.SetNode.{SetNode as Node};
ghost use Rattle.cil_parse.specs.declared.row.SetNode.TheVariants as nodes;
ghost use Rattle.cil_expression.specs.Holds.{Answers};
ghost use Rattle.cil_expression.specs.Listed.{list_nodes};

use cil_parse::SetNode;

/// What stands behind a name that is the next element of a list.
fn behind_listed(spelling: &[SetNode]) -> Option<&[SetNode]>
    ensures { MatchOption result
        ((more : List Node) → spelling.now ≡ nodes.Element ∷ nodes.Name ∷ more → ⊥)
        (λ behind. spelling.now ≡ nodes.Element ∷ nodes.Name ∷ behind.now) }
{
    match spelling {
        [SetNode::Element, SetNode::Name, behind @ ..] => Some(behind),
        _ => None,
    }
}

/// Whether a list ends.
fn is_end(spelling: &[SetNode]) -> bool
    ensures { IsTrue result ↔ (spelling.now ≡ list_nodes 0) }
{
    matches!(spelling, [SetNode::Nothing])
}

/// Whether these are the nodes of a plain list of so many names.
pub(crate) fn are_of_list(spelling: &[SetNode], names: usize) -> bool
    ensures { IsTrue result ↔ (spelling.now ≡ list_nodes names) }
{
    let mut left = spelling;
    for _ in 0..names {
        match behind_listed(left) {
            Some(behind) => left = behind,
            None => return false,
        }
    }
    is_end(left)
}

/// Whether known answers that one of some names holds something. No name is asked behind the first that does.
pub(crate) fn holds_one<T: Copy, F: Fn(T) -> bool>(names: &[T], known: &F) -> bool
    requires callable { F.IsAlwaysCallable known.now }
    ensures { (value : T → Bool) → Answers (F.post known.now) (λ e. Contains names.now e) value
        → result ≡ list_any value names.now }
{
    let mut left = names;
    while let Some((name, behind)) = left.split_first() {
        if known(*name) {
            return true;
        }
        left = behind;
    }
    false
}
