//! The declaration of a boolean or a tunable.

ghost use Rattle.std.specs.Prelude.{◌≡◌, ◌∷◌, []};
ghost use Rattle.std.specs.Option.{option_map_or};
ghost use Rattle.cil_reader.specs.Common.{trees_of};
ghost use Rattle.cil_projection.specs.Conditions.{declaration};
ghost use Rattle.cil_projection.specs.Forms.{truth_word};

use crate::split::split_word;
use crate::words::is_among;
use cil_reader::TreeSlice;

/// The value that a word is.
pub fn truth(word: &[u8]) -> Option<bool>
    ensures { result ≡ truth_word word.now }
{
    if word == b"true".as_slice() {
        Some(true)
    } else if word == b"false".as_slice() {
        Some(false)
    } else {
        None
    }
}

/// The name and the value of the boolean or tunable that the statement with these trees declares, if it does.
pub fn declaration<'a>(items: TreeSlice<'_, 'a>) -> Option<(&'a [u8], bool)>
    ensures { option_map_or (λ found. (found.0.now, found.1) ∷ []) result []
        ≡ declaration (trees_of items.entry) }
{
    let Some((keyword, rest)) = split_word(items) else {
        return None;
    };
    let Some((name, rest)) = split_word(rest) else {
        return None;
    };
    let Some((value, rest)) = split_word(rest) else {
        return None;
    };
    if !rest.is_empty() {
        return None;
    }
    if !is_among(&[b"boolean", b"tunable"], keyword.text) {
        return None;
    }
    let Some(value) = truth(value.text) else {
        return None;
    };
    Some((name.text, value))
}
