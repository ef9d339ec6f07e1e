//! Words that stand behind one another.

ghost use Rattle.std.specs.Prelude.{◌≡◌, ◌↔◌, ◌+◌, ◌<◌, ◌^◌, ◌⊎◌, ℕ, false, IsTrue};
ghost use Rattle.cil_member_rows.specs.Common.{AreSome, IsOutside};

/// The words from the first one to behind the last one; none where the end isn't behind the first one.
#[derive(Clone, Copy)]
pub struct Words {
    pub first: usize,
    pub end: usize,
}

impl Words {
    /// No word.
    pub fn none() -> Self
        ensures is { result ≡ record { first = 0; end = 0 } }
        ensures none { (w : ℕ) → IsOutside result w }
    {
        Words { first: 0, end: 0 }
    }

    /// One word.
    pub fn one(word: usize) -> Self
        requires { word < 2 ^ 58 }
        ensures first { result.first ≡ word }
        ensures end { result.end ≡ word + 1 }
    {
        Words {
            first: word,
            end: word + 1,
        }
    }

    /// Whether there is a word.
    pub fn are_some(self) -> bool
        ensures { IsTrue result ↔ AreSome self }
    {
        self.first < self.end
    }

    /// Whether a word is one of these.
    pub fn has(self, word: usize) -> bool
        ensures { result ≡ false → IsOutside self word }
    {
        self.first <= word && word < self.end
    }

    /// The words of two, and those that stand between them.
    pub fn joined(self, other: Words) -> Self
        ensures outside { (w : ℕ) → IsOutside result w → IsOutside self w × IsOutside other w }
        ensures some { AreSome result → AreSome self ⊎ AreSome other }
    {
        if !self.are_some() {
            return other;
        }
        if !other.are_some() {
            return self;
        }
        Words {
            first: self.first.min(other.first),
            end: self.end.max(other.end),
        }
    }
}
