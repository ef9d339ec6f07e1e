//! Words that could be taken for names that a projection makes.

ghost use Rattle.std.specs.Prelude.{◌≡◌, option_map};
ghost use Rattle.cil_reader.specs.Common.{trees_of, word_of};
ghost use Rattle.cil_projection.specs.Statements.{first_marked, has_mark};

use cil_reader::{Tree, TreeSlice, Word};

/// The bytes that begin the names that a projection makes.
const MARK: &[u8] = b"cilsem__";

/// Whether a word has them in it.
fn has_mark(word: &[u8]) -> bool
    ensures { result ≡ has_mark word.now }
{
    let mut rest = word;
    while let [_, behind @ ..] = rest {
        if rest.starts_with(MARK) {
            return true;
        }
        rest = behind;
    }
    false
}

/// The first word of trees with them, in lists among them too.
#[cycle(marked)]
pub fn first_marked<'a>(trees: TreeSlice<'_, 'a>) -> Option<Word<'a>>
    ensures { option_map (λ word. word_of word) result ≡ first_marked (trees_of trees.entry) }
{
    let mut rest = trees;
    while let Some((tree, behind)) = rest.split_first() {
        match tree {
            Tree::Word(word) => {
                if has_mark(word.text) {
                    return Some(word);
                }
            }
            Tree::String(_) => {}
            Tree::List { items, .. } => {
                if let Some(word) = first_marked(items) {
                    return Some(word);
                }
            }
        }
        rest = behind;
    }
    None
}
