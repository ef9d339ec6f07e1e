//! What the tables of names are hashed by.

ghost use Rattle.std.specs.Prelude.{◌≡◌};

use std::hash::{BuildHasher, FoldHasher, Hasher};
use std::io;
use std::random::RandomSource;

/// What each hash of a table of names starts from. Names come from strangers: who knows the seed can choose names that fall on one
/// another, so a program draws a seed of its own.
#[derive(Clone, Copy)]
pub struct Seed {
    start: FoldHasher,
}

impl Seed {
    /// The seed of library calls, which have no runtime to draw one from.
    pub fn fixed() -> Seed {
        Seed {
            start: FoldHasher::default(),
        }
    }

    /// The seed of a number.
    pub fn of(number: u64) -> Seed {
        let mut start = FoldHasher::default();
        start.write_u64(number);
        Seed { start }
    }

    /// A seed that is drawn from the runtime.
    pub fn random(rt: &impl RandomSource) -> io::Result<Seed> {
        let mut bytes = [0; 8];
        rt.fill_bytes(&mut bytes)?;
        Ok(Seed::of(u64::from_le_bytes(bytes)))
    }
}

impl BuildHasher for Seed {
    type Hasher = FoldHasher;

    ghost build_hasher = { λ seed. seed.start };

    fn build_hasher(&self) -> FoldHasher {
        self.start
    }
}
