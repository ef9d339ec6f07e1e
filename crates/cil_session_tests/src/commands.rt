//! The command line, where its source or its sinks fail after some bytes, and where growths are refused while files are read and compiled.

use crate::shown::shown;
use cil_program::command_line::command;
use cil_program::command_line::compile::{Asked, Report, compile_entries};
use cil_program::command_line::files::{ReadFault, read_files};
use cil_store::{OwnedEntry, Seed};
use cil_stream::{MemorySink, MemorySource};
use refusing::Refusing;
use std::alloc::{AllocError, Global};
use std::fs;
use std::process::Abort;
use std::random::RandomSource;
use std::rt::Files;

// How the program ended: its status, what it printed, and what it told on standard error.
type Done<'a> = (u8, &'a str, &'a str);

// Words, how many bytes the source gives before it fails, how many the sinks take, and what comes of them.
type Case = (&'static [&'static str], usize, usize, usize, Done<'static>);

// An install and a question, which begins at the byte 90.
const SCRIPT: &[u8] =
    b"install m 400 72\n(class file (read write))(type a)(type b)(allow a b (file (write read)))\nrules\n";

const ANSWER: &str = "ok 2 0\nallow a b:file { read write };\nend 1\n";

const NO_WORDS: &str = "error: 'cilsem' requires a subcommand but one was not provided\n  \
    [subcommands: session, compile, project, help]\n\n\
    Usage: cilsem <COMMAND>\n\nFor more information, try '--help'.\n";

const NOTE: &str = "note: 0 statements of 0 kinds taken by their names alone\n";

const NO_FOREIGN: &str =
    "error: '--booleans' goes with '--foreign names'\n\nFor more information, try '--help'.\n";

const CASES: &[Case] = &[
    (&["cilsem", "session"], 1000, 1000, 0, (0, ANSWER, "")),
    (&["cilsem", "session"], 92, 1000, 0, (3, "ok 2 0\n", "")),
    (&["cilsem", "session"], 1000, 9, 0, (3, "ok 2 0\nal", "")),
    (
        &["cilsem", "compile", "failing_devices.cil"],
        0,
        1000,
        0,
        (0, "allow a a:p { use };\n", ""),
    ),
    (
        &["cilsem", "compile", "failing_devices.cil"],
        0,
        7,
        1000,
        (3, "allow a", ""),
    ),
    (
        &["cilsem", "compile", "--violations", "failing_devices.cil"],
        0,
        10,
        1000,
        (3, "neverallow", ""),
    ),
    (
        &[
            "cilsem",
            "compile",
            "failing_devices.cil",
            "failing_devices",
        ],
        0,
        1000,
        4,
        (3, "", "refu"),
    ),
    (
        &["cilsem", "compile", "failing_devices.txt"],
        0,
        0,
        5,
        (3, "", "unrea"),
    ),
    (
        &[
            "cilsem",
            "compile",
            "--foreign",
            "names",
            "failing_devices.cil",
        ],
        0,
        1000,
        1000,
        (0, "allow a a:p { use };\n", NOTE),
    ),
    (
        &["cilsem", "project", "failing_devices.cil"],
        0,
        3,
        1000,
        (3, "(cl", NOTE),
    ),
    (
        &["cilsem", "project", "failing_devices"],
        0,
        1000,
        1000,
        (
            1,
            "",
            "refused 12 failing_devices:1:1 (\nnote: this list isn't closed\n",
        ),
    ),
    (
        &[
            "cilsem",
            "compile",
            "--booleans",
            "both",
            "failing_devices.cil",
        ],
        0,
        1000,
        1000,
        (2, "", NO_FOREIGN),
    ),
    (&["cilsem", "--version"], 0, 6, 1000, (3, "cilsem", "")),
    (&["cilsem"], 0, 1000, 6, (3, "", "error:")),
    (&[], 0, 0, 1000, (2, "", NO_WORDS)),
];

const GOOD: &[u8] = b"(class p (use))(type a)(allow a a (p (use)))(neverallow a a (p (use)))";

// Whether the program does that with words, where its source gives so many bytes and its sinks
// take so many.
fn is_done<R: Files + RandomSource + Abort>(rt: &R, alloc: Global, case: &Case) -> bool {
    let (words, given, printed, told, want) = *case;
    let mut source = MemorySource::with_limits(SCRIPT, 7, given);
    let mut out = MemorySink::with_limits(alloc, 3, printed);
    let mut err = MemorySink::with_limits(alloc, 3, told);
    let status = command(rt, alloc, words, &mut source, &mut out, &mut err);
    (status, shown(out.bytes()), shown(err.bytes())) == want
}

#[test]
fn devices_that_fail(rt: HostRuntime) {
    assert!(rt; fs::write(&rt, "failing_devices.cil", GOOD).is_ok());
    assert!(rt; fs::write(&rt, "failing_devices", b"(type").is_ok());
    for (n, case) in CASES.iter().enumerate() {
        let same = is_done(&rt, rt.alloc(), case);
        assert!(rt; same, "case {n}");
    }
    assert!(rt; fs::remove_file(&rt, "failing_devices").is_ok());
    assert!(rt; fs::remove_file(&rt, "failing_devices.cil").is_ok());
}

const RULE: &[u8] = b"(allow a a (p (use)))";

const BASE: &[u8] = b"(class p (use))(type a)(neverallow a a (p (use)))";

const PATHS: &[&str] = &["refused_growths_a.cil", "refused_growths_b.cil"];

// Whether a growth was refused from the nth on, and whether what was asked for came to what it has
// to then.
type Told = (bool, bool);

// Of files that are read.
fn read_at(rt: &impl Files, alloc: &Refusing<Global>, nth: u64) -> Told {
    alloc.refuse_from(nth);
    let before = alloc.refused();
    let (is_read, is_memory) = match read_files(rt, alloc, PATHS) {
        Ok(_) => (true, false),
        Err(ReadFault::Memory) => (false, true),
        Err(ReadFault::Unreadable { .. }) => (false, false),
    };
    if alloc.refused() > before {
        (true, is_memory)
    } else {
        (false, is_read)
    }
}

// How many growths are refused in turn until files are read, or the first that doesn't end as it
// has to.
fn refused_reads(rt: &impl Files, alloc: Global) -> Result<u64, u64> {
    let alloc = Refusing::new(alloc);
    for nth in 1..1000u64 {
        let (is_refused, is_so) = read_at(rt, &alloc, nth);
        if !is_so {
            return Err(nth);
        }
        if !is_refused {
            return Ok(nth - 1);
        }
    }
    Err(1000)
}

const TEXTS: &[(&[u8], &[u8])] = &[(b"a", RULE), (b"b", BASE)];

// Entries that own these texts.
fn entries_in<'a>(
    alloc: &'a Refusing<Global>,
) -> Result<Vec<OwnedEntry<'static, &'a Refusing<Global>>, &'a Refusing<Global>>, AllocError> {
    let mut entries = Vec::new(alloc);
    for (name, text) in TEXTS {
        entries.push(OwnedEntry {
            name: *name,
            priority: 400,
            text: Vec::from_slice(alloc, *text)?,
        })?;
    }
    Ok(entries)
}

// The status of each report and what it prints.
const REPORTS: &[(Report, u8, &str)] = &[
    (Report::Listing, 0, "allow a a:p { use };\n"),
    (
        Report::Violations,
        1,
        "neverallow b:1:24 allow a:1:1 a a:p { use };\n",
    ),
];

// Of entries that are compiled.
fn compiled_at(heap: Global, report: &(Report, u8, &str), nth: u64) -> Told {
    let (report, status, printed) = *report;
    let seed = Seed::fixed();
    let asked = Asked {
        report,
        explained: false,
        seed,
    };
    let alloc = Refusing::new(heap);
    let Ok(entries) = entries_in(&alloc) else {
        return (true, false);
    };
    alloc.refuse_from(nth);
    let mut out = MemorySink::new(heap);
    let mut err = MemorySink::new(heap);
    let ended = compile_entries(&alloc, entries, asked, &mut out, &mut err);
    let found = (ended, shown(out.bytes()), shown(err.bytes()));
    if alloc.refused() > 0 {
        (true, found == (Ok(1), "", "refused 60 memory\n"))
    } else {
        (false, found == (Ok(status), printed, ""))
    }
}

// How many growths are refused in turn until entries are compiled, or the first that doesn't end
// as it has to.
fn refused_compilations(heap: Global, report: &(Report, u8, &str)) -> Result<u64, u64> {
    for nth in 1..10_000u64 {
        let (is_refused, is_so) = compiled_at(heap, report, nth);
        if !is_so {
            return Err(nth);
        }
        if !is_refused {
            return Ok(nth - 1);
        }
    }
    Err(10_000)
}

#[test]
fn growths_that_are_refused(rt: HostRuntime) {
    assert!(rt; fs::write(&rt, "refused_growths_a.cil", RULE).is_ok());
    assert!(rt; fs::write(&rt, "refused_growths_b.cil", BASE).is_ok());
    let refused = refused_reads(&rt, rt.alloc());
    assert!(rt; refused.unwrap_or(0) > 1, "{refused:?}");
    for report in REPORTS {
        let refused = refused_compilations(rt.alloc(), report);
        assert!(rt; refused.unwrap_or(0) > 1, "{refused:?}");
    }
    assert!(rt; fs::remove_file(&rt, "refused_growths_a.cil").is_ok());
    assert!(rt; fs::remove_file(&rt, "refused_growths_b.cil").is_ok());
}
