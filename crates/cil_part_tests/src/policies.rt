//! Policies of small texts.

ghost use Rattle.std.specs.Prelude.{List, IfOk, ℕ};
ghost use Rattle.cil_specs.specs.Joined.{Module};
ghost use Rattle.cil_parse.specs.Parsed.{IsParsed};
ghost use Rattle.cil_resolve.specs.Modules.{AreParsedFrom};

use cil_names::Seed;
use cil_parse::{ParsedModule, parse};
use cil_resolve::{Joined, NamedModule, Resolved, resolve};
use std::alloc::{AllocError, Global};
use std::process::Abort;

// The parsed module of a text that the store takes.
fn module_of(rt: &impl Abort, alloc: Global, text: &[u8]) -> ParsedModule
    ensures { (text : List ℕ) × IsParsed text result }
{
    assert!(rt; text.len() <= 16_777_216, "too long a text");
    parse(alloc, Seed::fixed(), text).expect(rt, "a module")
}

// The module m alone.
fn joined(alloc: Global, m: &ParsedModule) -> Result<Joined<'_>, AllocError>
    requires { (text : List ℕ) × IsParsed text m.now }
    ensures { IfOk result (λ joined. (modules : List Module) × AreParsedFrom joined.modules.items modules) }
{
    let modules = Vec::from_array(
        alloc,
        [NamedModule {
            name: b"m",
            module: m,
        }],
    )?;
    Ok(Joined {
        modules,
        seed: Seed::fixed(),
    })
}

/// The policy of the module m of a text.
pub fn policy(rt: &impl Abort, alloc: Global, text: &[u8]) -> Resolved {
    let m = module_of(rt, alloc, text);
    let joined = joined(alloc, &m).expect(rt, "memory");
    resolve(alloc, &joined).expect(rt, "a policy")
}
