//! What a store says of names.

use cil_store::{Compiled, Edit, Plain, Store};

// Edits that a store takes: m has two texts, and n is disabled.
const TAKEN: &[Edit<'static>] = &[
    Edit::Install {
        name: b"m",
        priority: 401,
        text: b";",
    },
    Edit::Install {
        name: b"m",
        priority: 400,
        text: b"(type c)",
    },
    Edit::Install {
        name: b"n",
        priority: 1,
        text: b"(type a)",
    },
    Edit::Disable { name: b"n" },
];

// Names, the text that counts of each, and whether it is disabled.
const STATES: &[(&[u8], Option<&[u8]>, bool)] = &[
    (b"m", Some(b";"), false),
    (b"n", None, true),
    (b"q", None, false),
];

fn is_named(store: &Store, name: &[u8], active: Option<&[u8]>, is_disabled: bool) -> bool {
    store.active(name) == active && store.is_disabled(name) == is_disabled
}

// Whether n alone is disabled.
fn has_disabled(store: &Store) -> bool {
    store.disabled_len() == 1
        && store.disabled(0) == Some(b"n".as_slice())
        && store.disabled(1) == None
}

#[test]
fn names_of_a_store(rt: HostRuntime) {
    let mut engine = Plain::new(rt.alloc());
    for edit in TAKEN {
        assert!(rt; engine.edit(*edit).is_ok());
    }
    for (name, active, is_disabled) in STATES {
        let same = is_named(engine.store(), name, *active, *is_disabled);
        assert!(rt; same);
    }
    assert!(rt; has_disabled(engine.store()));
}
