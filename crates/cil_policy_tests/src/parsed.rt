//! Modules kept parsed.

use crate::policies::module_of;
use crate::shown::shown;
use SetNode::{All, And, Element, Name, Not, Nothing};
use Table::{Classes, PermissionSets, Scopes, Types};
use cil_names::Seed;
use cil_parse::{NumberedWord, ParsedModule, SetNode, StatementKind, StatementView, Table};
use cil_text::{RuleKind, read};
use std::alloc::Global;
use std::process::Abort;

const TEXT: &[u8] = b"(class f (read))(block b (type t))
(optional o (allow b.t .b.t (f (read))))(allow b.t self (f (read)))
(classpermission t)(classpermissionset t (f (read)))(allow b.t .b.t t)(allow b.t self t)";

// The text of a number.
fn text_of(parsed: &ParsedModule, n: usize) -> &str {
    if n < parsed.text_count() {
        shown(parsed.text(n))
    } else {
        "no text"
    }
}

// The text of a word of a list.
fn text_at<'p>(parsed: &'p ParsedModule, words: &[NumberedWord], i: usize) -> Option<&'p str> {
    match words.get(i) {
        Some(word) => Some(text_of(parsed, word.text as usize)),
        None => None,
    }
}

// A name, and the table that it stands in.
type Named<'p> = (Table, &'p str);

fn named<'p>(parsed: &'p ParsedModule, found: Option<(Table, NumberedWord)>) -> Option<Named<'p>> {
    let (table, word) = found?;
    Some((table, text_of(parsed, word.text as usize)))
}

// The same of the reference of an index.
fn referred<'p>(parsed: &'p ParsedModule, view: &StatementView<'_>, k: usize) -> Option<Named<'p>> {
    let (table, word) = view.reference(k)?;
    Some((table, text_of(parsed, word.text as usize)))
}

// A statement: the offset and the line of its place, the numbers of its block and its optional, and how many words and nodes it has.
type Shape = (u32, u32, u32, u32, usize, usize);

// A statement by its shape and its kind, what it declares, its references, of which there are
// three at most, and its only permission.
type Told = (
    Shape,
    StatementKind,
    Option<Named<'static>>,
    &'static [Named<'static>],
    Option<&'static str>,
);

const ALLOW: StatementKind = StatementKind::Rule(RuleKind::Allow);

const ALLOW_SELF: StatementKind = StatementKind::RuleToSelf(RuleKind::Allow);

const ALLOW_SET: StatementKind = StatementKind::RuleOfSet(RuleKind::Allow);

const ALLOW_SET_SELF: StatementKind = StatementKind::RuleToSelfOfSet(RuleKind::Allow);

const OF_RULE: &[Named<'static>] = &[(Types, "b.t"), (Types, ".b.t"), (Classes, "f")];

const OF_SELF: &[Named<'static>] = &[(Types, "b.t"), (Classes, "f")];

const OF_SET: &[Named<'static>] = &[(PermissionSets, "t"), (Classes, "f")];

const OF_SET_RULE: &[Named<'static>] = &[(Types, "b.t"), (Types, ".b.t"), (PermissionSets, "t")];

const OF_SET_SELF: &[Named<'static>] = &[(Types, "b.t"), (PermissionSets, "t")];

const STATEMENTS: [Told; 10] = [
    (
        (0, 1, 0, 0, 2, 0),
        StatementKind::Class,
        Some((Classes, "f")),
        &[],
        Some("read"),
    ),
    (
        (16, 1, 0, 0, 1, 0),
        StatementKind::Block,
        Some((Scopes, "b")),
        &[],
        None,
    ),
    (
        (25, 1, 2, 0, 1, 0),
        StatementKind::TypeName,
        Some((Types, "t")),
        &[],
        None,
    ),
    (
        (35, 2, 0, 0, 1, 0),
        StatementKind::Optional,
        Some((Scopes, "o")),
        &[],
        None,
    ),
    ((47, 2, 0, 4, 4, 0), ALLOW, None, OF_RULE, Some("read")),
    ((75, 2, 0, 0, 3, 0), ALLOW_SELF, None, OF_SELF, Some("read")),
    (
        (103, 3, 0, 0, 1, 0),
        StatementKind::ClassPermission,
        Some((PermissionSets, "t")),
        &[],
        None,
    ),
    (
        (122, 3, 0, 0, 3, 0),
        StatementKind::ClassPermissionSet,
        None,
        OF_SET,
        Some("read"),
    ),
    ((155, 3, 0, 0, 3, 0), ALLOW_SET, None, OF_SET_RULE, None),
    (
        (173, 3, 0, 0, 2, 0),
        ALLOW_SET_SELF,
        None,
        OF_SET_SELF,
        None,
    ),
];

fn shape_seen(view: &StatementView<'_>) -> Shape {
    (
        view.at.offset,
        view.at.line,
        view.block,
        view.optional,
        view.words.len(),
        view.nodes.len(),
    )
}

// Whether a statement is such.
fn is_told(parsed: &ParsedModule, view: &StatementView<'_>, told: &Told) -> bool {
    let (shape, kind, declared, references, permission) = *told;
    for k in 0..4usize {
        if referred(parsed, view, k) != references.get(k).copied() {
            return false;
        }
    }
    shape_seen(view) == shape
        && view.kind == kind
        && named(parsed, view.declared()) == declared
        && text_at(parsed, view.permissions(), 0) == permission
        && text_at(parsed, view.permissions(), 1) == None
}

// Each text of a word once, and its names by their numbers, in the order of their first use.
fn has_numbers(parsed: &ParsedModule) -> bool {
    parsed.text_count() == 7
        && shown(parsed.text(6)) == ".b.t"
        && parsed.components(5) == [2, 3].as_slice()
        && parsed.components(6) == [2, 3].as_slice()
        && parsed.name_count() == 5
        && shown(parsed.name(3)) == "t"
}

// The first of ten statements that isn't such, if there is one, or ten where the numbers of their
// words are others.
fn wrong_statement(parsed: &ParsedModule) -> Option<usize> {
    if parsed.len() != 10 {
        return Some(parsed.len());
    }
    for i in 0..10usize {
        if !is_told(parsed, &parsed.statement(i), &STATEMENTS[i]) {
            return Some(i);
        }
    }
    if has_numbers(parsed) { None } else { Some(10) }
}

// Nodes stand in front of their operands.
const NODES: &[SetNode] = &[Element, And, Name, Not, Name, Element, All, Nothing];

// Whether a module is one statement of the nodes above, and of the words s, a and b.
fn has_nodes(parsed: &ParsedModule) -> bool {
    if parsed.len() != 1 {
        return false;
    }
    let view = parsed.statement(0);
    view.nodes == NODES
        && text_at(parsed, view.words, 0) == Some("s")
        && text_at(parsed, view.words, 1) == Some("a")
        && text_at(parsed, view.words, 2) == Some("b")
        && text_at(parsed, view.words, 3) == None
}

const LISTS: &[u8] =
    b"(class f (r w))(allow a a (f (r w)))(allow b b (f (w r)))(allow c self (f (r w)))(type t)\n\
    (classpermissionset s (f (w r)))(allow a a s)";

// The same permissions in the same order have one number, and others another.
fn has_permission_lists(parsed: &ParsedModule) -> bool {
    if parsed.len() != 7 {
        return false;
    }
    let first = parsed.permission_list(1);
    parsed.permission_list_count() == 3
        && parsed.permission_list(0) == first
        && parsed.permission_list(3) == first
        && parsed.permission_list(2) != first
        && parsed.permission_list(4) != first
        && parsed.permission_list(5) == parsed.permission_list(2)
        && parsed.permission_list(6) == parsed.permission_list(4)
}

#[test]
fn parsed_modules(rt: HostRuntime) {
    let wrong = wrong_statement(&module_of(&rt, rt.alloc(), TEXT));
    assert!(rt; wrong.is_none(), "at {wrong:?}");
    let same = has_permission_lists(&module_of(&rt, rt.alloc(), LISTS));
    assert!(rt; same);
}

// By its trees.
#[test]
fn nodes_of_a_set_expression(rt: HostRuntime) {
    let text = b"(typeattributeset s ((and a (not b)) all))";
    let forest = read(rt.alloc(), text).expect(&rt, "trees");
    let parsed = ParsedModule::of(rt.alloc(), Seed::fixed(), forest);
    let parsed = parsed.expect(&rt, "statements");
    let same = has_nodes(&parsed);
    assert!(rt; same);
}
