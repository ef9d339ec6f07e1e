//! Faults: where they are, and how they are printed for a programmer.

use crate::policies::{Told, outcome};
use crate::shown::shown;
use cil_names::Seed;
use cil_parse::parse;
use cil_resolve::{PolicyFault, PolicyFaultKind};
use cil_stream::{SinkFault, SourceFault};
use cil_text::{Place, ShownWord, TextFault, TextFaultKind};
use std::alloc::{AllocError, Global};
use std::fmt::Display;

// A place: its offset, its line and its column.
type At = (u32, u32, u32);

// The byte or the text of a word.
fn word_seen<'a>(word: ShownWord<'a>) -> (Option<u8>, &'a str) {
    match word {
        ShownWord::Byte(byte) => (Some(byte), ""),
        ShownWord::Text(text) => (None, shown(text)),
    }
}

// A text, and the code, the place and the word of its fault.
type Faulty = (&'static [u8], u8, At, (Option<u8>, &'static str));

const FAULTY: &[Faulty] = &[
    (b"(type a)\n\x0c", 10, (9, 2, 1), (Some(12), "")),
    (b"(type a)\n (type)", 21, (11, 2, 3), (None, "type")),
];

fn is_faulty(fault: &TextFault<'_>, faulty: &Faulty) -> bool {
    let (_, code, want, shown_word) = faulty;
    match fault {
        TextFault::Memory => false,
        TextFault::Found { kind, at, word } => {
            let place = (at.offset, at.line, at.column);
            kind.code() == *code && place == *want && word_seen(*word) == *shown_word
        }
    }
}

// Whether a text has that fault.
fn is_refused_text(alloc: Global, faulty: &Faulty) -> bool {
    if faulty.0.len() > 16_777_216 {
        return false;
    }
    match parse(alloc, Seed::fixed(), faulty.0) {
        Ok(_) => false,
        Err(fault) => is_faulty(&fault, faulty),
    }
}

const TWICE: Told = (41, "m", (15, 2, 7), "a");

const AT: Place = Place {
    offset: 9,
    line: 2,
    column: 3,
};

const TOO_DEEP: TextFault<'static> = TextFault::Found {
    kind: TextFaultKind::TooDeep,
    at: AT,
    word: ShownWord::Text(b"("),
};

const MISSING: PolicyFault<'static> = PolicyFault::Found {
    kind: PolicyFaultKind::Missing,
    module: b"m",
    at: AT,
    word: b"a",
};

// Whether a fault is printed so.
fn is_printed<T: Display>(alloc: Global, fault: &T, want: &str) -> bool {
    match format!(in alloc; "{fault}") {
        Ok(printed) => printed.as_str() == want,
        Err(_) => false,
    }
}

#[test]
fn places_of_faults(rt: HostRuntime) {
    for faulty in FAULTY {
        let same = is_refused_text(rt.alloc(), faulty);
        assert!(rt; same, "code {}", faulty.1);
    }
    let refused = outcome(&rt, rt.alloc(), b"(type a)\n(type a)", b"", &TWICE);
    let same = refused.err() == Some(true);
    assert!(rt; same);
}

#[test]
fn printed_faults(rt: HostRuntime) {
    let alloc = rt.alloc();
    let same = is_printed(alloc, &TOO_DEEP, "TooDeep at 2:3")
        && is_printed(alloc, &MISSING, "Missing at 2:3")
        && is_printed(alloc, &TextFault::from(AllocError), "out of memory")
        && is_printed(alloc, &PolicyFault::from(AllocError), "out of memory")
        && is_printed(alloc, &SourceFault, "the input failed")
        && is_printed(alloc, &SinkFault, "the output failed");
    assert!(rt; same);
}
