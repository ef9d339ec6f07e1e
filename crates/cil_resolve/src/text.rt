//! Bytes that are owned: a name, or the text of a module.

ghost use Rattle.std.specs.Prelude.{◌≡◌, ◌≤◌, length, take, drop, IfOk, OnOk};

use cil_shared::SharedPart;
use std::alloc::{AllocError, Allocator, Global};
use std::marker::Model;

/// Bytes of a text alone, or a part of bytes that several texts own together.
#[derive(Drop, Debug)]
enum Bytes<A: Allocator = Global> {
    Own(Vec<u8, A>),
    Shared(SharedPart<u8, A>),
}

/// Bytes that are owned. Contracts see it as their list.
#[derive(Drop, Debug)]
pub struct Text<A: Allocator = Global> {
    bytes: Bytes<A>,
}

impl<A: Allocator> Model for Text<A> {
    ghost use Rattle.std.specs.Prelude.{List, ℕ};
    ghost use Rattle.cil_resolve.specs.Text.{bytes_of};

    ghost Value = { List ℕ };

    ghost view = { λ t. bytes_of t.bytes };
}

impl<A: Allocator> Text<A> {
    /// A copy of the bytes.
    pub fn of(alloc: A, bytes: &[u8]) -> Result<Self, AllocError>
        ensures { IfOk result (λ t. t ≡ bytes.now) }
    {
        Ok(Text::from_vec(Vec::from_slice(alloc, bytes)?))
    }

    /// The bytes of a vector, which is not copied.
    pub fn from_vec(bytes: Vec<u8, A>) -> Self
        ensures { result ≡ bytes.items }
    {
        Text {
            bytes: Bytes::Own(bytes),
        }
    }

    /// The bytes of a part of a vector, which is not copied.
    pub fn from_part(bytes: SharedPart<u8, A>) -> Self
        ensures { result ≡ bytes }
    {
        Text {
            bytes: Bytes::Shared(bytes),
        }
    }

    pub fn as_slice(&self) -> &[u8]
        ensures { result.now ≡ self.now }
    {
        match &self.bytes {
            Bytes::Own(bytes) => bytes.as_slice(),
            Bytes::Shared(part) => part.as_slice(),
        }
    }
}

/// The first so many bytes of a part as a text. The part is what stands behind them from then on.
pub fn next_text<A: Allocator>(
    rest: &mut SharedPart<u8, A>,
    count: usize,
) -> Result<Text<A>, AllocError>
    requires { count ≤ length rest.old }
    ensures text { IfOk result (λ t. t ≡ take count rest.old) }
    ensures rest { OnOk result (rest.new ≡ drop count rest.old) }
{
    let text = Text::from_part(rest.part(0, count)?);
    let behind = rest.as_slice().len() - count;
    *rest = rest.part(count, behind)?;
    Ok(text)
}
