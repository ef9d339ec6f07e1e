//! Trees from the front on.

ghost use Rattle.std.specs.Prelude.{◌≡◌, ◌≢◌, MatchOption};
ghost use Rattle.cil_specs.specs.Names.{Word as SpecWord};
ghost use Rattle.cil_specs.specs.Trees.{Trees};
ghost use Rattle.cil_specs.specs.Expr.{IsListThen};
ghost use Rattle.cil_specs.specs.Shape.{put_word};
ghost use Rattle.cil_reader.specs.Common.{trees_of, word_of};

use cil_reader::{Tree, TreeSlice, Word};

/// The word in front, and the trees behind it.
pub fn split_word<'t, 'a>(trees: TreeSlice<'t, 'a>) -> Option<(Word<'a>, TreeSlice<'t, 'a>)>
    ensures { MatchOption result
        ((word : SpecWord) (rest : Trees) → trees_of trees.entry ≢ put_word word rest)
        (λ found. trees_of trees.entry ≡ put_word (word_of found.0) (trees_of found.1)) }
{
    match trees.split_first()? {
        (Tree::Word(word), rest) => Some((word, rest)),
        _ => None,
    }
}

/// The trees of the list in front, and the trees behind it.
pub fn split_list<'t, 'a>(
    trees: TreeSlice<'t, 'a>,
) -> Option<(TreeSlice<'t, 'a>, TreeSlice<'t, 'a>)>
    ensures { MatchOption result
        ((items rest : Trees) → IsListThen (trees_of trees.entry) items rest → ⊥)
        (λ found. IsListThen (trees_of trees.entry) (trees_of found.0) (trees_of found.1)) }
{
    match trees.split_first()? {
        (Tree::List { items, .. }, rest) => Some((items, rest)),
        _ => None,
    }
}
