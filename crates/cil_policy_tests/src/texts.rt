//! Texts that are read and recognised.

use crate::shown::shown;
use cil_text::{
    ClassPermissions, Expr, Module, RuleKind, Statement, Target, Tree, TreeSlice, Word, read, shape,
};
use std::alloc::Global;
use std::process::Abort;

// A tree: its form, the text of a word or a string, its place by the offset and the line, and the end of a list and how many
// trees it has.
type Shape<'a> = (&'static str, &'a str, u32, u32, u32, usize);

fn tree_seen<'a>(tree: &Tree<'_, 'a>) -> Shape<'a> {
    match tree {
        Tree::Word(word) => ("word", shown(word.text), word.at.offset, word.at.line, 0, 0),
        Tree::String(word) => (
            "string",
            shown(word.text),
            word.at.offset,
            word.at.line,
            0,
            0,
        ),
        Tree::List { at, end, items } => ("list", "", at.offset, at.line, *end, items.len()),
    }
}

// Whether trees are such.
fn are_trees(trees: TreeSlice<'_, '_>, want: &[Shape<'_>]) -> bool {
    let mut rest = trees;
    for shape in want {
        match rest.split_first() {
            Some((tree, behind)) if tree_seen(&tree) == *shape => rest = behind,
            _ => return false,
        }
    }
    trees.len() == want.len()
}

const TREES: &[Shape<'static>] = &[("list", "", 0, 1, 14, 3), ("list", "", 19, 3, 21, 0)];

const OF_FIRST: &[Shape<'static>] = &[
    ("word", "a", 1, 1, 0, 0),
    ("string", "\"b c\"", 3, 1, 0, 0),
    ("list", "", 10, 2, 13, 1),
];

// Whether the first of some trees is a list of such trees.
fn is_list_first(trees: TreeSlice<'_, '_>, want: &[Shape<'_>]) -> bool {
    match trees.split_first() {
        Some((Tree::List { items, .. }, _)) => are_trees(items, want),
        _ => false,
    }
}

#[test]
fn trees_of_a_text(rt: HostRuntime) {
    let text = b"(a \"b c\"\n (d)) ; e\n()";
    let forest = read(rt.alloc(), text).expect(&rt, "trees");
    let same = are_trees(forest.trees(), TREES) && is_list_first(forest.trees(), OF_FIRST);
    assert!(rt; same);
}

// The text of a name, and where it begins.
type Name<'a> = (&'a str, u32);

const NONE: Name<'static> = ("", 0);

fn seen<'a>(word: &Word<'a>) -> Name<'a> {
    (shown(word.text), word.at.offset)
}

fn form(statement: &Statement<'_>) -> &'static str {
    match statement {
        Statement::Block { .. } => "block",
        Statement::Optional { .. } => "optional",
        Statement::TypeName { .. } => "type",
        Statement::TypeAlias { .. } => "typealias",
        Statement::TypeAliasActual { .. } => "typealiasactual",
        Statement::TypeAttribute { .. } => "typeattribute",
        Statement::TypeAttributeSet { .. } => "typeattributeset",
        Statement::Common { .. } => "common",
        Statement::Class { .. } => "class",
        Statement::ClassCommon { .. } => "classcommon",
        Statement::ClassOrder { .. } => "classorder",
        Statement::ClassPermission { .. } => "classpermission",
        Statement::ClassPermissionSet { .. } => "classpermissionset",
        Statement::Rule { kind, .. } => match kind {
            RuleKind::Allow => "allow",
            RuleKind::AuditAllow => "auditallow",
            RuleKind::DontAudit => "dontaudit",
            RuleKind::NeverAllow => "neverallow",
        },
    }
}

// The target of a rule.
fn target_name<'a>(target: &Target<'a>) -> Name<'a> {
    match target {
        Target::Itself => ("self", 0),
        Target::Named(word) => seen(word),
    }
}

// The class or the permission set of a rule.
fn permissions_name<'a>(permissions: &ClassPermissions<'a>) -> Name<'a> {
    match permissions {
        ClassPermissions::Anonymous { class, .. } => seen(class),
        ClassPermissions::Named(set) => seen(set),
    }
}

// The names that are a statement's own, up to three.
fn names<'a>(statement: &Statement<'a>) -> [Name<'a>; 3] {
    match statement {
        Statement::Block { id, .. }
        | Statement::Optional { id, .. }
        | Statement::TypeName { id, .. }
        | Statement::TypeAlias { id, .. }
        | Statement::TypeAttribute { id, .. }
        | Statement::Common { id, .. }
        | Statement::Class { id, .. }
        | Statement::ClassPermission { id, .. } => [seen(id), NONE, NONE],
        Statement::TypeAliasActual { alias, actual, .. } => [seen(alias), seen(actual), NONE],
        Statement::TypeAttributeSet { attribute, .. } => [seen(attribute), NONE, NONE],
        Statement::ClassCommon { class, common, .. } => [seen(class), seen(common), NONE],
        Statement::ClassOrder { .. } => [NONE, NONE, NONE],
        Statement::ClassPermissionSet { set, class, .. } => [seen(set), seen(class), NONE],
        Statement::Rule {
            source,
            target,
            permissions,
            ..
        } => [
            seen(source),
            target_name(target),
            permissions_name(permissions),
        ],
    }
}

fn name_at<'a>(words: &[Word<'a>], i: usize) -> Name<'a> {
    match words.get(i) {
        Some(word) => seen(word),
        None => NONE,
    }
}

// The name at an index of a plain list of permissions.
fn element_at<'a>(permissions: &Expr<'a>, i: usize) -> Name<'a> {
    let Expr::Union(elements) = permissions else {
        return NONE;
    };
    match elements.get(i) {
        Some(Expr::Name(word)) => seen(word),
        _ => NONE,
    }
}

// The name at an index of a statement's list.
fn listed_at<'a>(statement: &Statement<'a>, i: usize) -> Name<'a> {
    match statement {
        Statement::Common { permissions, .. } | Statement::Class { permissions, .. } => {
            name_at(permissions.as_slice(), i)
        }
        Statement::ClassPermissionSet { permissions, .. }
        | Statement::Rule {
            permissions: ClassPermissions::Anonymous { permissions, .. },
            ..
        } => element_at(permissions, i),
        Statement::ClassOrder { classes, .. } => name_at(classes.as_slice(), i),
        _ => NONE,
    }
}

// A statement: its form, its own names, and the first three of its list.
type Said<'a> = (&'static str, &'a [Name<'a>], &'a [Name<'a>]);

// Whether a statement is such.
fn is_said(statement: &Statement<'_>, said: &Said<'_>) -> bool {
    let (word, own, list) = *said;
    let names = names(statement);
    for i in 0..3usize {
        let wanted = (own.get(i).copied(), list.get(i).copied());
        if names[i] != wanted.0.unwrap_or(NONE)
            || listed_at(statement, i) != wanted.1.unwrap_or(NONE)
        {
            return false;
        }
    }
    form(statement) == word
}

// Whether statements are of such forms and names.
fn are_said(found: &[Statement<'_>], want: &[Said<'_>]) -> bool {
    for (statement, want) in found.iter().zip(want) {
        if !is_said(statement, want) {
            return false;
        }
    }
    found.len() == want.len()
}

// The statements of a text.
fn shaped<'a>(rt: &impl Abort, alloc: Global, text: &'a [u8]) -> Module<'a> {
    assert!(rt; text.len() <= 16_777_216, "too long a text");
    let forest = read(alloc, text).expect(rt, "trees");
    shape(alloc, forest).expect(rt, "statements")
}

// A statement of each form.
const FORMS_TEXT: &[u8] =
    b"(block a)(optional b)(type c)(typealias d)(typealiasactual e f)(typeattribute g)\n\
    (typeattributeset h all)(common i ())(class j ())(classcommon k l)(classorder (unordered m))\n\
    (allow n o (p ()))(auditallow .q r (s ()))(dontaudit t.u v (w ()))(neverallow x y (z ()))\n\
    (classpermission a)(classpermissionset b (c ()))(allow d e f)(dontaudit g self .h)";

const FORMS: &[Said<'static>] = &[
    ("block", &[("a", 7)], &[]),
    ("optional", &[("b", 19)], &[]),
    ("type", &[("c", 27)], &[]),
    ("typealias", &[("d", 40)], &[]),
    ("typealiasactual", &[("e", 59), ("f", 61)], &[]),
    ("typeattribute", &[("g", 78)], &[]),
    ("typeattributeset", &[("h", 99)], &[]),
    ("common", &[("i", 113)], &[]),
    ("class", &[("j", 125)], &[]),
    ("classcommon", &[("k", 143), ("l", 145)], &[]),
    ("classorder", &[], &[("m", 170)]),
    ("allow", &[("n", 181), ("o", 183), ("p", 186)], &[]),
    ("auditallow", &[(".q", 204), ("r", 207), ("s", 210)], &[]),
    ("dontaudit", &[("t.u", 227), ("v", 231), ("w", 234)], &[]),
    ("neverallow", &[("x", 252), ("y", 254), ("z", 257)], &[]),
    ("classpermission", &[("a", 281)], &[]),
    ("classpermissionset", &[("b", 303), ("c", 306)], &[]),
    ("allow", &[("d", 319), ("e", 321), ("f", 323)], &[]),
    ("dontaudit", &[("g", 336), ("self", 0), (".h", 343)], &[]),
];

// Statements with names in lists, and a rule to itself.
const LISTS_TEXT: &[u8] =
    b"(allow a b (c (d e)))(auditallow a self (c ()))(common e (f))(class g (h i))(classcommon c .d)\n\
    (classpermissionset k (l (m n)))";

const OF_LISTS: &[Said<'static>] = &[
    (
        "allow",
        &[("a", 7), ("b", 9), ("c", 12)],
        &[("d", 15), ("e", 17)],
    ),
    ("auditallow", &[("a", 33), ("self", 0), ("c", 41)], &[]),
    ("common", &[("e", 55)], &[("f", 58)]),
    ("class", &[("g", 68)], &[("h", 71), ("i", 73)]),
    ("classcommon", &[("c", 89), (".d", 91)], &[]),
    (
        "classpermissionset",
        &[("k", 115), ("l", 118)],
        &[("m", 121), ("n", 123)],
    ),
];

const NESTED_TEXT: &[u8] = b"(block a (optional b (type c)) (type d))";

const OF_BLOCK: &[Said<'static>] = &[("optional", &[("b", 19)], &[]), ("type", &[("d", 37)], &[])];

const OF_OPTIONAL: &[Said<'static>] = &[("type", &[("c", 27)], &[])];

// Where the first of some statements begins, if it is a rule.
fn rule_place(found: &[Statement<'_>]) -> Option<(u32, u32, u32)> {
    match found.first() {
        Some(Statement::Rule { at, .. }) => Some((at.offset, at.line, at.column)),
        _ => None,
    }
}

// Texts, what their statements are, and where the first of these begins, if it is a rule.
const TEXTS: &[(&[u8], &[Said<'static>], Option<(u32, u32, u32)>)] = &[
    (FORMS_TEXT, FORMS, None),
    (LISTS_TEXT, OF_LISTS, Some((0, 1, 1))),
];

#[test]
fn statements_and_their_names(rt: HostRuntime) {
    for (i, (text, want, at)) in TEXTS.iter().enumerate() {
        let module = shaped(&rt, rt.alloc(), text);
        let found = module.statements.as_slice();
        let same = are_said(found, want) && rule_place(found) == *at;
        assert!(rt; same, "text {i}");
    }
}

// The statements inside a block or an optional.
fn body<'s, 'a>(statement: &'s Statement<'a>) -> &'s [Statement<'a>] {
    match statement {
        Statement::Block { body, .. } | Statement::Optional { body, .. } => body.as_slice(),
        _ => &[],
    }
}

// Whether the first of some statements has such statements in it, and an optional that has others.
fn is_nested(found: &[Statement<'_>], in_block: &[Said<'_>], in_optional: &[Said<'_>]) -> bool {
    let Some(block) = found.first() else {
        return false;
    };
    let Some(optional) = body(block).first() else {
        return false;
    };
    are_said(body(block), in_block) && are_said(body(optional), in_optional)
}

// Whether an expression is that name at that place.
fn is_name(expr: &Expr<'_>, name: Name<'_>) -> bool {
    matches!(expr, Expr::Name(word) if seen(word) == name)
}

// Whether the first statement sets an attribute by `(and (or b all) (xor (not c) ((all) d)))`, by
// name and place.
fn is_set(found: &[Statement<'_>]) -> bool {
    let Some(Statement::TypeAttributeSet { expr, .. }) = found.first() else {
        return false;
    };
    let Expr::And(either, one) = expr else {
        return false;
    };
    let (Expr::Or(b, every), Expr::Xor(but, union)) = (&**either, &**one) else {
        return false;
    };
    let (Expr::Not(c), Expr::Union(elements)) = (&**but, &**union) else {
        return false;
    };
    let [first, second] = elements.as_slice() else {
        return false;
    };
    matches!(&**every, Expr::All)
        && matches!(first, Expr::All)
        && is_name(b, ("b", 29))
        && is_name(c, ("c", 46))
        && is_name(second, ("d", 56))
}

const SET_TEXT: &[u8] = b"(typeattributeset a (and (or b all) (xor (not c) ((all) d))))";

#[test]
fn statements_within_statements(rt: HostRuntime) {
    let module = shaped(&rt, rt.alloc(), NESTED_TEXT);
    let same = is_nested(module.statements.as_slice(), OF_BLOCK, OF_OPTIONAL);
    assert!(rt; same);
    let module = shaped(&rt, rt.alloc(), SET_TEXT);
    let same = is_set(module.statements.as_slice());
    assert!(rt; same);
}
