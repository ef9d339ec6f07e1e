//! The compilation of entries at once.

ghost use Rattle.std.specs.Prelude.{◌≡◌, ◌≤◌, [], List, ℕ, map, length, IfOk, IsErrOf};
ghost use Rattle.cil_program.specs.Common.{Gains, GainsFront, HasFailed, IsMeaningOf, Of, accepts, Store, owned_entry, Compiles, WritesBoth};
ghost use Rattle.cil_resolve.specs.Resolved.{meaning_in};
ghost use Rattle.cil_specs.specs.Violations.{Violation};
ghost use Rattle.cil_program.specs.CommandLine.{status_of_violations};

use crate::command_line::meanings::{write_no_memory, write_refusal};
use cil_store::{OwnedEntry, Policy, Seed, WriteFault};
use cil_stream::{Sink, SinkFault};
use std::alloc::Allocator;

/// What is written of a compiled policy.
#[derive(Clone, Copy, Debug, PartialEq, Eq)]
pub enum Report {
    /// The listing of its accesses.
    Listing,
    /// The violations of its neverallow rules.
    Violations,
}

/// What is asked of a compilation: what is written, whether refusals are explained, and what the tables of names are hashed by.
#[derive(Clone, Copy)]
pub struct Asked {
    pub report: Report,
    pub explained: bool,
    pub seed: Seed,
}

/// The exit status by how many violations there are.
fn status_of(violations: usize) -> u8
    ensures { (listed : List Violation) → violations ≡ length listed
        → result ≡ status_of_violations listed }
{
    if violations == 0 { 0 } else { 1 }
}

/// Writes a report of the policy of a store, and gives the exit status.
fn write_report<W: Sink, A: Allocator + Copy>(
    policy: &Policy<A>,
    report: Report,
    out: &mut W,
) -> Result<u8, WriteFault>
    ensures ok { (explained : _) (entries : _) (store : Store)
        → Of entries (accepts store) → IsMeaningOf store (meaning_in policy.now)
        → IfOk result (λ status. (printed : List ℕ)
        × Gains (W.taken out.old) (W.taken out.new) printed
        × Compiles explained entries report printed [] status) }
    ensures err { (explained : _) (entries : _) (store : Store)
        → Of entries (accepts store) → IsMeaningOf store (meaning_in policy.now)
        → IsErrOf result WriteFault.Sink → (printed : List ℕ) × (status : ℕ)
        × GainsFront (W.taken out.old) (W.taken out.new) printed
        × Compiles explained entries report printed [] status }
    ensures memory { IsErrOf result WriteFault.Memory → W.taken out.new ≡ W.taken out.old }
    ensures failed { IsErrOf result WriteFault.Sink → HasFailed (W.failures out.old) (W.failures out.new) }
    ensures counted { W.failures out.old ≤ W.failures out.new }
{
    match report {
        Report::Listing => {
            policy.write_listing(out)?;
            Ok(0)
        }
        Report::Violations => {
            let violations = policy.write_violations(out)?;
            Ok(status_of(violations))
        }
    }
}

/// Compiles entries at once and writes the report, and gives the exit status. A refusal is written to `err`, and then nothing to
/// `out`.
///
/// # Errors
///
/// Where a sink failed. Then the sinks took a beginning.
pub fn compile_entries<W: Sink, E: Sink, A: Allocator + Copy>(
    alloc: A,
    entries: Vec<OwnedEntry<'_, A>, A>,
    asked: Asked,
    out: &mut W,
    err: &mut E,
) -> Result<u8, SinkFault>
    ensures { WritesBoth W.taken W.failures out.old out.new E.taken E.failures err.old err.new
        (Compiles asked.explained (map owned_entry entries.entry.items) asked.report) result }
{
    let policy = match Policy::of(alloc, asked.seed, entries) {
        Ok(policy) => policy,
        Err(refusal) => return write_refusal(err, &refusal, asked.explained).and(Ok(1)),
    };
    match write_report(&policy, asked.report, out) {
        Ok(status) => Ok(status),
        Err(WriteFault::Memory) => write_no_memory(err, asked.explained).and(Ok(1)),
        Err(WriteFault::Sink) => Err(SinkFault),
    }
}
