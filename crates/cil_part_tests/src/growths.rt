//! A line of counters whose growths are refused in turn. An addition that was refused leaves each counter as it was, and succeeds when it
//! is asked again.

use cil_lines::Line;
use refusing::Refusing;
use std::alloc::Global;
use std::process::Abort;

// Adds 1 in a word to the targets that a mask has.
type Addition = (u32, u64);

const EACH: u64 = u64::MAX;

// Words in front and far behind, counters up to 8, and entries enough to become dense.
const ADDITIONS: &[Addition] = &[
    (0, 0b1111),
    (0, 0b1110),
    (30, EACH),
    (30, 1 << 63),
    (30, 1 << 63),
    (30, 1 << 63),
    (20, 7),
    (0, 0b1100),
    (20, 7),
    (40, 3),
    (25, 1),
    (35, 1),
    (30, EACH),
    (28, 5),
    (22, 1 << 63),
    (24, 1),
    (32, 1),
    (38, 1),
    (30, EACH),
    (30, EACH),
    (30, EACH),
    (50, 9),
];

// The targets up to here are looked at.
const TARGETS: usize = 64 * 52;

// How often these add to a target.
fn wanted(additions: &[Addition], target: usize) -> u64 {
    let mut count: u64 = 0;
    for (word, mask) in additions {
        if *word as usize == target / 64 && (*mask >> (target % 64)) & 1 == 1 {
            count = count.saturating_add(1);
        }
    }
    count
}

fn assert_counts(rt: &impl Abort, line: &Line<&Refusing<Global>>, first: &[Addition]) {
    for target in 0..TARGETS {
        assert!(rt; line.count(target) == wanted(first, target));
    }
}

// Makes an addition behind others.
fn add<'h>(
    rt: &impl Abort,
    heap: &'h Refusing<Global>,
    line: &mut Line<&'h Refusing<Global>>,
    first: &[Addition],
    added: &Addition,
) {
    let (word, mask) = *added;
    let before = heap.refused();
    if line.add(heap, word as usize, mask).is_err() {
        assert!(rt; heap.refused() > before);
        assert_counts(rt, line, first);
        line.add(heap, word as usize, mask).expect(rt, "memory");
    }
}

// Adds with the nth growth refused, and says whether any was refused.
fn was_refused(rt: &impl Abort, alloc: Global, nth: u64) -> bool {
    let heap = Refusing::new(alloc);
    let mut line = Line::new(&heap);
    heap.refuse(nth);
    for (n, added) in ADDITIONS.iter().enumerate() {
        add(rt, &heap, &mut line, &ADDITIONS[..n], added);
    }
    assert_counts(rt, &line, ADDITIONS);
    heap.refused() > 0
}

#[test]
fn each_growth_of_a_line(rt: HostRuntime) {
    let mut growths = 0;
    for nth in 1..100u64 {
        if was_refused(&rt, rt.alloc(), nth) {
            assert!(&rt; growths == nth - 1);
            growths = nth;
        }
    }
    assert!(&rt; growths > 10);
    assert!(&rt; growths < 99);
}
