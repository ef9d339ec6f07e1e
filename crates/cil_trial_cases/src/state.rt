//! All that an engine answers of its store.

use crate::case::Names;
use crate::engine::{Access, Engine, Rule};
use crate::fault::Fault;
use crate::report::write_texts;
use cil_stream::MemorySink;
use itoa::Buffer;

const QUESTIONS: &[u8] = b"modules\nrules\nviolations\ndropped\n";

/// A module that compiles to nothing comes and goes again. Each compiles the store anew.
const PROBE: &[u8] = b"install probe 400 0\n\ndropped\nremove probe 400\n";

const RULES: [(Rule, &str); 4] = [
    (Rule::Allow, "allow"),
    (Rule::AuditAllow, "auditallow"),
    (Rule::DontAudit, "dontaudit"),
    (Rule::NeverAllow, "neverallow"),
];

/// Writes which types are members of which attributes.
fn write_members<T: Engine>(
    report: &mut MemorySink,
    engine: &T,
    names: &Names<'_>,
) -> Result<(), Fault> {
    for attribute in &names.attributes {
        for ty in &names.types {
            if engine.has(attribute, ty) {
                let (attribute, ty) = (attribute.as_bytes(), ty.as_bytes());
                write_texts(report, &[b"has ", attribute, b" ", ty, b"\n"])?;
            }
        }
    }
    Ok(())
}

/// Writes how many rules give an access, if some do.
fn write_count<T: Engine>(
    report: &mut MemorySink,
    engine: &T,
    access: Access<'_>,
    rule: &str,
) -> Result<(), Fault> {
    let count = engine.count(access);
    if count == 0 {
        return Ok(());
    }
    let mut digits = Buffer::new();
    write_texts(
        report,
        &[
            b"count ",
            rule.as_bytes(),
            b" ",
            access.source.as_bytes(),
            b" ",
            access.target.as_bytes(),
            b" ",
            access.class.as_bytes(),
            b" ",
            access.permission.as_bytes(),
            b" ",
            digits.format(count).as_bytes(),
            b"\n",
        ],
    )
}

/// Writes the counts of the accesses of a type to another one.
fn write_pair<T: Engine>(
    report: &mut MemorySink,
    engine: &T,
    names: &Names<'_>,
    source: &str,
    target: &str,
) -> Result<(), Fault> {
    for (rule, word) in &RULES {
        for (class, permission) in &names.permissions {
            let access = Access {
                rule: *rule,
                source,
                target,
                class,
                permission,
            };
            write_count(report, engine, access, word)?;
        }
    }
    Ok(())
}

fn write_counts<T: Engine>(
    report: &mut MemorySink,
    engine: &T,
    names: &Names<'_>,
) -> Result<(), Fault> {
    for source in &names.types {
        for target in &names.types {
            write_pair(report, engine, names, source, target)?;
        }
    }
    Ok(())
}

/// Writes the answers to a script.
fn ask<T: Engine>(report: &mut MemorySink, engine: &mut T, script: &[u8]) -> Result<(), Fault> {
    if engine.answer(script, report).is_fault() {
        return Err(Fault::Memory);
    }
    Ok(())
}

/// Writes what an engine answers of its store: its modules, the listing, the violations, the optionals that drop, the members and the
/// counts.
pub fn write_state<T: Engine>(
    report: &mut MemorySink,
    engine: &mut T,
    names: &Names<'_>,
) -> Result<(), Fault> {
    ask(report, engine, QUESTIONS)?;
    write_members(report, engine, names)?;
    write_counts(report, engine, names)
}

/// Writes the state, and what a module that compiles to nothing changes of it.
pub fn write_probed<T: Engine>(
    report: &mut MemorySink,
    engine: &mut T,
    names: &Names<'_>,
) -> Result<(), Fault> {
    write_state(report, engine, names)?;
    ask(report, engine, PROBE)
}
