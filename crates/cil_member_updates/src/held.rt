//! The types that a set statement holds, where they are known.

ghost use Rattle.std.specs.Prelude.{◌≡◌, slice_index};
ghost use Rattle.cil_member_updates.specs.Common.{is_set};

// How many symbols a word has.
const WORD: usize = 64;

/// The bits of a word.
pub fn word_of(words: &[u64], word: usize) -> u64
    ensures { result ≡ slice_index words.now word }
{
    match words.get(word) {
        Some(bits) => *bits,
        None => 0,
    }
}

/// Whether the bit of a symbol is set.
pub fn has_bit(words: &[u64], t: usize) -> bool
    ensures { result ≡ is_set words.now t }
{
    word_of(words, t / WORD) >> (t % WORD) & 1 == 1
}
