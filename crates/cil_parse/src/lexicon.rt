//! The words of a module by numbers, while it is gone over.

ghost use Rattle.std.specs.Prelude.{◌≡◌, ◌∷◌, ◌<◌, ◌==◌, [], Some, slice_get, length, IfOk, OnOk, IfSome, IfNone};
ghost use Rattle.cil_parse.specs.Common.{with_name, texts_in, AddsNames, SplitsText, IsLexicon};
ghost use Rattle.std.specs.List.{slice_split};
ghost use Rattle.cil_text.specs.Name.{without_dot};

use crate::lists::Lists;
use crate::recalled::RecalledNames;
use cil_names::{Names, Seed, in_32_bits};
use std::alloc::{AllocError, Allocator, Global};

/// The distinct texts of words and the distinct names between their dots, each in the order of their first use, and for each text the
/// numbers of its names.
#[derive(Drop)]
pub struct Lexicon<'a, A: Allocator = Global> {
    pub texts: RecalledNames<'a, A>,
    pub names: Names<'a, A>,
    pub components: Lists<u32, A>,
}

/// The text behind a leading dot, if it has one.
fn without_dot(text: &[u8]) -> &[u8]
    ensures { result.now ≡ without_dot text.now }
{
    match text {
        [b'.', rest @ ..] => rest,
        _ => text,
    }
}

/// The text in front of the first dot and the text behind it.
fn split_dot(text: &[u8]) -> Option<(&[u8], &[u8])>
    ensures some { IfSome result (λ found. slice_split (λ b. b == 46) text.now ≡ found.0.now ∷ slice_split (λ b. b == 46) found.1.now) }
    ensures shorter { IfSome result (λ found. length found.1.now < length text.now) }
    ensures none { IfNone result (slice_split (λ b. b == 46) text.now ≡ text.now ∷ []) }
{
    let at = text.iter().position(|b| *b == b'.')?;
    Some((&text[..at], &text[at + 1..]))
}

impl<'a, A: Allocator + Copy> Lexicon<'a, A> {
    /// No word. It takes no memory.
    pub fn new(alloc: A, seed: Seed) -> Self
        ensures lexicon { IsLexicon result }
        ensures empty { texts_in result ≡ [] }
    {
        Lexicon {
            texts: RecalledNames::new(alloc, seed),
            names: Names::new(alloc, seed),
            components: Lists::new(alloc),
        }
    }

    /// Puts the number of a name at the end of the open list.
    fn push_name(&mut self, name: &'a [u8]) -> Result<(), AllocError>
        ensures { OnOk result (AddsNames self.old self.new (name.now ∷ [])) }
    {
        let (n, _new) = self.names.insert(name)?;
        self.components.push(in_32_bits(n)?)?;
        Ok(())
    }

    /// Puts the numbers of the names between dots at the end of the open list.
    fn push_names(&mut self, text: &'a [u8]) -> Result<(), AllocError>
        ensures { OnOk result (AddsNames self.old self.new (slice_split (λ b. b == 46) text.now)) }
    {
        let mut rest = text;
        while let Some((name, behind)) = split_dot(rest) {
            self.push_name(name)?;
            rest = behind;
        }
        self.push_name(rest)?;
        Ok(())
    }

    /// Puts a list with the numbers of the names of a text behind the others.
    fn split(&mut self, text: &'a [u8]) -> Result<(), AllocError>
        ensures { OnOk result (SplitsText self.old self.new text.now) }
    {
        self.push_names(without_dot(text))?;
        self.components.close()?;
        Ok(())
    }

    /// The number of a text, which is new or known. On failure the lexicon is of no more use.
    pub fn text(&mut self, text: &'a [u8]) -> Result<u32, AllocError>
        ensures number { IfOk result (λ n. slice_get (texts_in self.new) n ≡ Some text.now) }
        ensures texts { OnOk result (texts_in self.new ≡ with_name (texts_in self.old) text.now) }
        ensures lexicon { OnOk result (IsLexicon self.old → IsLexicon self.new) }
    {
        let (n, new) = self.texts.insert(text)?;
        let k = in_32_bits(n)?;
        if new {
            self.split(text)?;
        }
        Ok(k)
    }
}
