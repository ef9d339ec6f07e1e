//! The components of names.

ghost use Rattle.std.specs.Prelude.{◌≡◌};
ghost use Rattle.cil_projection.specs.Pieces.{last_component};

/// The last component of a name, which dots part.
pub fn last_component(name: &[u8]) -> &[u8]
    ensures { result.now ≡ last_component name.now }
{
    let mut last = name;
    let mut rest = name;
    while let [first, behind @ ..] = rest {
        if *first == b'.' {
            last = behind;
        }
        rest = behind;
    }
    last
}
