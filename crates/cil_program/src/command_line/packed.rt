//! Packages of policies, by what they begin with.

ghost use Rattle.std.specs.Prelude.{◌≡◌};
ghost use Rattle.cil_program.specs.Packed.{packed_of};

/// What looks like a package, which isn't text.
#[derive(Clone, Copy, Debug, PartialEq, Eq)]
pub enum Packed {
    Plain,
    /// Compressed by `bzip2`.
    Compressed,
}

/// What a text looks like, if it looks like a package.
pub fn packed_of(text: &[u8]) -> Option<Packed>
    ensures { result ≡ packed_of text.now }
{
    if text.starts_with(b"\x8f\xff\x7c\xf9") {
        Some(Packed::Plain)
    } else if text.starts_with(b"BZh") {
        Some(Packed::Compressed)
    } else {
        None
    }
}

impl Packed {
    ghost use Rattle.std.specs.Prelude.{◌≡◌};
    ghost use Rattle.cil_program.specs.Packed.{packed_line};

    /// The line that tells what converts it.
    pub fn line(self) -> &'static [u8]
        ensures { result.now ≡ packed_line self }
    {
        match self {
            Packed::Plain => {
                b"note: the file looks like a policy package, which /usr/libexec/selinux/hll/pp FILE NAME.cil converts\n"
            }
            Packed::Compressed => {
                b"note: the file is compressed by bzip2: bzcat FILE gives its text, or a policy package for /usr/libexec/selinux/hll/pp\n"
            }
        }
    }
}
