//! Edits that a store takes, as far as the store and their text go.

ghost use Rattle.std.specs.Prelude.{◌≡◌, ◌≤◌, None, length, IfErr, IfOk, OnOk};
ghost use Rattle.cil_store.specs.Common.{install, store_refusal, admitted_edit, IsAdmitted, edit_of, refusal_of, IsRefusedEdit, IsRefusedText};

use crate::edit::Edit;
use crate::entry::Entry;
use crate::modules::Store;
use crate::refusal::Refusal;
use crate::refusing::{refuse_edit, refuse_text};
use cil_names::Seed;
use cil_parse::{ParsedModule, parse};
use std::alloc::{Allocator, Global};

/// An edit that isn't refused for the store or for its text. An install has the parsed module of its text.
#[derive(Drop)]
pub enum Admitted<'e, A: Allocator = Global> {
    Install {
        entry: Entry<'e>,
        module: ParsedModule<A>,
    },
    Remove {
        name: &'e [u8],
        priority: u32,
    },
    Enable {
        name: &'e [u8],
    },
    Disable {
        name: &'e [u8],
    },
}

/// An install with the parsed module of its text, if the text spells one.
fn admit_install<'e, A: Allocator + Copy>(
    alloc: A,
    seed: Seed,
    entry: Entry<'e>,
) -> Result<Admitted<'e, A>, Refusal<A>>
    requires { length entry.text.now ≤ 16777216 }
    ensures ok { IfOk result (λ admitted. IsAdmitted admitted × (admitted_edit admitted
        ≡ install entry.entry.name.now entry.entry.priority entry.entry.text.now)) }
    ensures err { IfErr result (λ refusal. IsRefusedText
        (install entry.entry.name.now entry.entry.priority entry.entry.text.now)
        (refusal_of refusal)) }
{
    match parse(alloc, seed, entry.text) {
        Ok(module) => Ok(Admitted::Install { entry, module }),
        Err(fault) => Err(refuse_text(alloc, entry.name, fault)),
    }
}

/// An edit, if neither the store nor its text is against it.
pub fn admit<'e, A: Allocator + Copy>(
    alloc: A,
    store: &Store<A>,
    edit: Edit<'e>,
) -> Result<Admitted<'e, A>, Refusal<A>>
    ensures taken { OnOk result (store_refusal store.now (edit_of edit.entry) ≡ None) }
    ensures ok { IfOk result (λ admitted. IsAdmitted admitted × (admitted_edit admitted ≡ edit_of edit.entry)) }
    ensures err { IfErr result (λ refusal. IsRefusedEdit store.now (edit_of edit.entry) (refusal_of refusal)) }
{
    if let Err(fault) = store.check(edit) {
        return Err(refuse_edit(alloc, fault, edit.name(), edit.priority()));
    }
    match edit {
        Edit::Install {
            name,
            priority,
            text,
        } => admit_install(
            alloc,
            store.seed,
            Entry {
                name,
                priority,
                text,
            },
        ),
        Edit::Remove { name, priority } => Ok(Admitted::Remove { name, priority }),
        Edit::Enable { name } => Ok(Admitted::Enable { name }),
        Edit::Disable { name } => Ok(Admitted::Disable { name }),
    }
}
