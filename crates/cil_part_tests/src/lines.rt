//! Lines of counters where programs don't reach: targets behind those of any policy, lists without a line, and rows without a step.

use cil_accesses::{AccessNumbers, Accesses, Chunk};
use cil_keyed_lines::{KeyedLines, Moved, SymbolKey};
use cil_lines::Line;
use cil_member_rows::MemberRows;
use cil_recorded::RecordedLines;
use cil_text::RuleKind;
use std::alloc::{AllocError, Global};
use std::process::Abort;

const LAST: usize = u32::MAX as usize;

// The targets 448 and 64 * LAST + 1 are counted once.
fn far(alloc: Global) -> Result<Line, AllocError> {
    let mut line = Line::new(alloc);
    line.add(alloc, LAST, 0b10)?;
    line.add(alloc, 7, 0b01)?;
    Ok(line)
}

// Words, their targets, those of them that are counted once, and the first word from them on.
const WORDS: &[(usize, u64, Option<usize>)] = &[
    (0, 0, Some(7)),
    (7, 1, Some(7)),
    (8, 0, Some(LAST)),
    (LAST, 2, Some(LAST)),
    (LAST + 1, 0, None),
    (1 << 40, 0, None),
    (usize::MAX, 0, None),
];

// Targets, and their counters.
const TARGETS: &[(usize, u64)] = &[
    (0, 0),
    (448, 1),
    (64 * LAST, 0),
    (64 * LAST + 1, 1),
    (usize::MAX, 0),
];

fn is_far(line: &Line) -> bool {
    for (word, mask, next) in WORDS {
        let found = (line.present(*word), line.single(*word));
        if found != (*mask, *mask) || line.next_present_word(*word) != *next {
            return false;
        }
    }
    for (target, count) in TARGETS {
        if line.count(*target) != *count {
            return false;
        }
    }
    true
}

// Whether the access to the greatest target is that of its chunk.
fn has_last_target(alloc: Global) -> Result<bool, AllocError> {
    let mut chunks = Vec::new(alloc);
    chunks.push(Chunk {
        kind: RuleKind::Allow,
        source: 1,
        word: (1 << 26) - 1,
        class: 2,
        permission: 3,
        bits: 1 << 63,
    })?;
    let accesses = Accesses::of(chunks);
    let last = AccessNumbers {
        kind: RuleKind::Allow,
        source: 1,
        target: u32::MAX,
        class: 2,
        permission: 3,
    };
    Ok(accesses.len() == 1 && accesses.get(0) == Some(last) && accesses.get(1).is_none())
}

// Whether of two rows that with a step alone has one.
fn are_rows(alloc: Global) -> Result<bool, AllocError> {
    let mut rows = MemberRows::new(alloc);
    let was_empty = rows.is_empty();
    rows.add_row(alloc)?;
    rows.add_row(alloc)?;
    rows.shift(alloc, 1, 4, 0, 0b10)?;
    let turned = (rows.has_turned(0), rows.has_turned(1), rows.has_turned(9));
    Ok(was_empty && !rows.is_empty() && turned == (false, true, false))
}

// A kind, a source, a class and a permission.
type Key = (RuleKind, usize, usize, usize);

// The key of these.
fn key(given: Key) -> SymbolKey {
    let (kind, source, class, permission) = given;
    SymbolKey {
        kind,
        source,
        class,
        permission,
    }
}

// Whether a list is empty until a line is put in.
fn list_fills(alloc: Global) -> Result<bool, AllocError> {
    let mut lines = RecordedLines::new(alloc);
    let was_empty = lines.is_empty();
    lines.put_in(alloc)?;
    Ok(was_empty && !lines.is_empty())
}

// The same of lines by their keys.
fn keyed_list_fills(alloc: Global) -> Result<bool, AllocError> {
    let mut lines = KeyedLines::new(alloc);
    let was_empty = lines.is_empty();
    let moved = Moved {
        word: 2,
        gone: 0,
        come: 1,
    };
    lines.add(alloc, &[key(KEYS[0])], &[moved])?;
    Ok(was_empty && !lines.is_empty())
}

// Keys in their order: by kind, then by source, then by class, then by permission.
const KEYS: [Key; 5] = [
    (RuleKind::Allow, 2, 1, 3),
    (RuleKind::Allow, 7, 1, 3),
    (RuleKind::Allow, 7, 1, 4),
    (RuleKind::Allow, 7, 2, 0),
    (RuleKind::DontAudit, 2, 1, 3),
];

// Whether each key is less than those behind it, and equal to itself alone.
fn are_ordered() -> bool {
    for i in 0..KEYS.len() {
        for j in 0..KEYS.len() {
            let (one, other) = (key(KEYS[i]), key(KEYS[j]));
            if one.cmp(&other) != i.cmp(&j) || (one == other) != (i == j) {
                return false;
            }
        }
    }
    true
}

fn is_line_far(rt: &impl Abort, alloc: Global) -> bool {
    is_far(&far(alloc).expect(rt, "memory"))
}

#[test]
fn lines_where_programs_dont_reach(rt: HostRuntime) {
    let alloc = rt.alloc();
    let same = [
        is_line_far(&rt, alloc),
        has_last_target(alloc).expect(&rt, "memory"),
        are_rows(alloc).expect(&rt, "memory"),
        list_fills(alloc).expect(&rt, "memory"),
        keyed_list_fills(alloc).expect(&rt, "memory"),
        are_ordered(),
    ];
    assert!(&rt; same == [true; 6]);
}
