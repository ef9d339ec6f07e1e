//! The edits that an open batch holds.

ghost use Rattle.std.specs.Prelude.{◌≡◌, IfOk};
ghost use Rattle.cil_session.specs.Common.{install, held_as, edit_of, held_edit};

use cil_resolve::Text;
use cil_store::Edit;
use std::alloc::{AllocError, Allocator};

/// How many bytes of a text are held at most: one more than a store takes, which shows that it is too long.
pub const GREATEST_HELD: usize = 16_777_217;

/// An edit with bytes of its own.
#[derive(Drop)]
pub enum HeldEdit<A: Allocator> {
    Install {
        name: Text<A>,
        priority: u32,
        text: Text<A>,
    },
    Remove {
        name: Text<A>,
        priority: u32,
    },
    Enable {
        name: Text<A>,
    },
    Disable {
        name: Text<A>,
    },
}

impl<A: Allocator + Copy> HeldEdit<A> {
    /// A copy of an edit, as it is held.
    pub fn of(alloc: A, edit: Edit<'_>) -> Result<Self, AllocError>
        ensures { IfOk result (λ held. held_edit held ≡ held_as (edit_of edit.entry)) }
    {
        match edit {
            Edit::Install {
                name,
                priority,
                text,
            } => {
                let held = &text[..text.len().min(GREATEST_HELD)];
                Ok(HeldEdit::Install {
                    name: Text::of(alloc, name)?,
                    priority,
                    text: Text::of(alloc, held)?,
                })
            }
            Edit::Remove { name, priority } => Ok(HeldEdit::Remove {
                name: Text::of(alloc, name)?,
                priority,
            }),
            Edit::Enable { name } => Ok(HeldEdit::Enable {
                name: Text::of(alloc, name)?,
            }),
            Edit::Disable { name } => Ok(HeldEdit::Disable {
                name: Text::of(alloc, name)?,
            }),
        }
    }

    /// An install, whose text isn't copied.
    pub fn install(
        alloc: A,
        name: &[u8],
        priority: u32,
        text: Vec<u8, A>,
    ) -> Result<Self, AllocError>
        ensures { IfOk result (λ held. held_edit held ≡ install name.now priority text.items) }
    {
        Ok(HeldEdit::Install {
            name: Text::of(alloc, name)?,
            priority,
            text: Text::from_vec(text),
        })
    }
}

impl<A: Allocator> HeldEdit<A> {
    /// The edit, borrowed.
    pub fn as_edit(&self) -> Edit<'_>
        ensures { edit_of result ≡ held_edit self.now }
    {
        match self {
            HeldEdit::Install {
                name,
                priority,
                text,
            } => Edit::Install {
                name: name.as_slice(),
                priority: *priority,
                text: text.as_slice(),
            },
            HeldEdit::Remove { name, priority } => Edit::Remove {
                name: name.as_slice(),
                priority: *priority,
            },
            HeldEdit::Enable { name } => Edit::Enable {
                name: name.as_slice(),
            },
            HeldEdit::Disable { name } => Edit::Disable {
                name: name.as_slice(),
            },
        }
    }
}
