//! Looking a word up in a table of words.

ghost use Rattle.cil_text.specs.Words.{LooksUp};

/// What the first row with the word holds.
pub fn look_up<T: Copy>(rows: &[(&[u8], T)], text: &[u8]) -> Option<T>
    ensures { LooksUp rows.now text.now result }
{
    let (_, value) = rows.iter().find(|(word, _)| text == *word)?;
    Some(*value)
}
