//! Small policies: modules that are joined, and references that are bound.

ghost use Rattle.std.specs.Prelude.{◌≡◌, List, IfOk, ℕ};
ghost use Rattle.cil_specs.specs.Joined.{Module, Placed};
ghost use Rattle.cil_parse.specs.Parsed.{IsParsed};
ghost use Rattle.cil_bind.specs.Scope.{AreSpelt};
ghost use Rattle.cil_bind.specs.Policy.{IsBoundTo};
ghost use Rattle.cil_resolve.specs.Modules.{AreParsedFrom};

use crate::shown::shown;
use cil_bind::{Joining, Policy, References};
use cil_names::Seed;
use cil_parse::{ParsedModule, parse};
use cil_resolve::{Joined, NamedModule, PolicyFault, Resolved, join, resolve};
use std::alloc::{AllocError, Global};
use std::process::Abort;

/// The parsed module of a text that the store takes.
pub fn module_of(rt: &impl Abort, alloc: Global, text: &[u8]) -> ParsedModule
    ensures { (text : List ℕ) × IsParsed text result }
{
    assert!(rt; text.len() <= 16_777_216, "too long a text");
    parse(alloc, Seed::fixed(), text).expect(rt, "a module")
}

// The modules m and n.
fn joined<'m>(
    alloc: Global,
    m: &'m ParsedModule,
    n: &'m ParsedModule,
) -> Result<Joined<'m>, AllocError>
    requires first { (text : List ℕ) × IsParsed text m.now }
    requires second { (text : List ℕ) × IsParsed text n.now }
    ensures parsed { IfOk result (λ joined. (modules : List Module) × AreParsedFrom joined.modules.items modules) }
    ensures spelt { IfOk result (λ joined. (modules : List Module) × AreSpelt joined.modules.items modules) }
{
    let modules = Vec::from_array(
        alloc,
        [
            NamedModule {
                name: b"m",
                module: m,
            },
            NamedModule {
                name: b"n",
                module: n,
            },
        ],
    )?;
    Ok(Joined {
        modules,
        seed: Seed::fixed(),
    })
}

// The modules n and m.
fn unsorted<'m>(
    alloc: Global,
    n: &'m ParsedModule,
    m: &'m ParsedModule,
) -> Result<Joined<'m>, AllocError> {
    let modules = Vec::from_array(
        alloc,
        [
            NamedModule {
                name: b"n",
                module: n,
            },
            NamedModule {
                name: b"m",
                module: m,
            },
        ],
    )?;
    Ok(join(modules, Seed::fixed()))
}

// Whether modules are m and n.
fn are_in_order(modules: &[NamedModule<'_>]) -> bool {
    match modules {
        [first, second] => shown(first.name) == "m" && shown(second.name) == "n",
        _ => false,
    }
}

const FIRST: &[u8] = b"(type t)(class c (p))(block b (type u)(allow t u (c (p))))
(optional o (type v)(allow v .t (c (p))))";

const SECOND: &[u8] = b"(allow t b.u (c (p)))";

// The place of a statement, and what its references are bound to.
type Bound = (usize, &'static [Option<u32>]);

// The marks of no optional and of those that are kept, each optional's by the number of its place and 1 more; how many statements
// are left, and what some of them are bound to.
type Kept = (&'static [bool], usize, &'static [Bound]);

// The first row keeps all, and the policy stays as it is.
const BOUND: [Kept; 2] = [
    (
        &[true, false, false, false, false, false, true],
        9,
        &[
            (4, &[Some(0), Some(3), Some(1)]),
            (7, &[Some(6), Some(0), Some(1)]),
            (8, &[Some(0), Some(3), Some(1)]),
        ],
    ),
    (
        &[true],
        7,
        &[
            (4, &[Some(0), Some(3), Some(1)]),
            (6, &[Some(0), Some(3), Some(1)]),
        ],
    ),
];

// Where the references of the statement of a place lead, if there is one.
fn references<'p>(
    policy: &'p Policy<'_>,
    joined: &'p Joined<'_>,
    place: usize,
) -> Option<References<'p>> {
    let row = policy.rows.get(place)?;
    let number = row.module as usize;
    let index = row.index as usize;
    let module = joined.modules.get(number)?.module;
    if index >= module.len() || number >= policy.leads.len() {
        return None;
    }
    Some(References::of(module.cited(index), policy.leads.get(number)))
}

// Whether references lead to these places.
fn lead_to(bound: &References<'_>, want: &[Option<u32>]) -> bool {
    for (k, place) in want.iter().enumerate() {
        if bound.place(k) != *place {
            return false;
        }
    }
    bound.len() == want.len()
}

// Whether so many statements are bound, and some of them to these.
fn is_bound<'p>(
    policy: &'p Policy<'_>,
    joined: &'p Joined<'_>,
    len: usize,
    rows: &[Bound],
) -> bool {
    for (place, want) in rows {
        let Some(bound) = references(policy, joined, *place) else {
            return false;
        };
        if !lead_to(&bound, want) {
            return false;
        }
    }
    policy.rows.len() == len
}

// Whether the policy without the optionals that a row leaves out is bound as the row says.
fn is_kept(rt: &impl Abort, alloc: Global, joined: &Joined<'_>, row: &Kept) -> bool
    requires { (modules : List Module) × AreSpelt joined.now.modules.items modules }
{
    let (marks, len, rows) = *row;
    let Joining::Once(policy) = Policy::of(alloc, joined).expect(rt, "memory") else {
        panic!(rt; "a name is declared again")
    };
    let kept = policy.restrict(alloc, joined, marks).expect(rt, "memory");
    is_bound(&kept, joined, len, rows)
}

// Whether all is bound, and the rest without an optional.
fn are_bound(rt: &impl Abort, alloc: Global) -> bool {
    let m = module_of(rt, alloc, FIRST);
    let n = module_of(rt, alloc, SECOND);
    let joined = joined(alloc, &m, &n).expect(rt, "memory");
    is_kept(rt, alloc, &joined, &BOUND[0]) && is_kept(rt, alloc, &joined, &BOUND[1])
}

#[test]
fn modules_are_joined_and_bound(rt: HostRuntime) {
    let module = module_of(&rt, rt.alloc(), b"(type b)(type b)");
    let joined = unsorted(rt.alloc(), &module, &module).expect(&rt, "memory");
    let same = are_in_order(joined.modules.as_slice());
    assert!(rt; same, "the order of modules");
    let same = are_bound(&rt, rt.alloc());
    assert!(rt; same);
}

/// The code and the module of a fault, its place by offset, line and column, and its word.
pub type Told = (u8, &'static str, (u32, u32, u32), &'static str);

fn is_told(fault: &PolicyFault<'_>, want: &Told) -> bool {
    match fault {
        PolicyFault::Memory => false,
        PolicyFault::Found {
            kind,
            module,
            at,
            word,
        } => {
            let place = (at.offset, at.line, at.column);
            (kind.code(), shown(module), place, shown(word)) == *want
        }
    }
}

/// What the modules m and n of two texts resolve to, or whether that is the first fault of their
/// policy.
pub fn outcome(
    rt: &impl Abort,
    alloc: Global,
    m: &[u8],
    n: &[u8],
    want: &Told,
) -> Result<Resolved, bool> {
    let m = module_of(rt, alloc, m);
    let n = module_of(rt, alloc, n);
    let joined = joined(alloc, &m, &n).expect(rt, "memory");
    match resolve(alloc, &joined) {
        Ok(policy) => Ok(policy),
        Err(fault) => Err(is_told(&fault, want)),
    }
}

/// What the modules m and n of two texts resolve to.
pub fn resolved(rt: &impl Abort, alloc: Global, m: &[u8], n: &[u8]) -> Resolved {
    let Ok(policy) = outcome(rt, alloc, m, n, &(0, "", (0, 0, 0), "")) else {
        panic!(rt; "a policy has a fault")
    };
    policy
}
