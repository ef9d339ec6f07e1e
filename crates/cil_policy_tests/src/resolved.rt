//! What small policies resolve to.

use crate::policies::resolved;
use cil_resolve::{
    ClassPermission, Element, ElementView, Meter, NameView, PermissionSetView, PermissionsView,
    Resolved, ResolvedPermissions, RuleView, SetView, TargetView,
};
use cil_text::RuleKind;

const CLASS_AND_TYPE: &[u8] = b"(class p (use))(type a)";

const RULE: &[u8] = b"(allow a a (p (use)))";

const PERMISSION_SETS: &[u8] = b"(class f (r w))(class g (x))(type a)(classpermission s)\
(classpermissionset s (g (all)))(classpermissionset s (f (not (w))))";

const RULES_OF_BOTH: &[u8] = b"(allow a a s)(allow a a (f (all)))";

const SETS: &[u8] = b"(type a)(type b)(typeattribute s)(typeattribute n)\
(typeattributeset n (not (s)))(typeattributeset s (a))";

// How many types, attributes, classes, rules and optionals that drop there are, and set statements and names.
fn lengths(policy: &Resolved) -> [usize; 7] {
    [
        policy.types_len(),
        policy.attributes_len(),
        policy.classes_len(),
        policy.rules_len(),
        policy.dropped_len(),
        policy.sets_len(),
        policy.names_len(),
    ]
}

// Whether a type is that one of the module m.
fn is_type(view: Option<NameView<'_>>, name: &[u8], offset: u32) -> bool {
    match view {
        Some(view) => {
            view.module == b"m".as_slice() && view.name == name && view.at.offset == offset
        }
        None => false,
    }
}

// What is known of a class and a type.
fn has_class_and_type(policy: &Resolved) -> bool {
    let Some(class) = policy.class_at(0) else {
        return false;
    };
    lengths(policy) == [1, 0, 1, 1, 0, 0, 3]
        && is_type(policy.type_at(0), b"a", 15)
        && policy.type_at(1).is_none()
        && policy.attribute_at(0).is_none()
        && policy.dropped_at(0).is_none()
        && class.name == b"p".as_slice()
        && class.permissions == 1
        && policy.class_permission(0, 0) == Some(b"use".as_slice())
}

// Whether permissions are one of the class p.
fn is_one_of_class(view: PermissionsView<'_>) -> bool {
    match view {
        PermissionsView::OfClass { class, permissions } => {
            class == b"p".as_slice() && permissions == 1
        }
        PermissionsView::OfSet(_) => false,
    }
}

// Whether a rule of the module n allows a accesses to a by the class p and one permission.
fn is_rule(view: &RuleView<'_>) -> bool {
    let a = b"a".as_slice();
    matches!(view.source, ElementView::Type(name) if name == a)
        && matches!(view.target, TargetView::Element(ElementView::Type(name)) if name == a)
        && view.module == b"n".as_slice()
        && view.kind == RuleKind::Allow
        && is_one_of_class(view.permissions)
}

// What is known of a rule: the names are a, p and use, and the rule's are numbers of these.
fn has_rule(policy: &Resolved) -> bool {
    let (Some(rule), Some(view)) = (policy.rules().first(), policy.rule_at(0)) else {
        return false;
    };
    is_rule(&view)
        && policy.rule_permission(0, 0) == Some(b"use".as_slice())
        && policy.rules().len() == 1
        && rule.source == Element::Type(0)
}

#[test]
fn a_rule_beside_a_class_and_a_type(rt: HostRuntime) {
    let policy = resolved(&rt, rt.alloc(), CLASS_AND_TYPE, RULE);
    let same = has_class_and_type(&policy) && has_rule(&policy);
    assert!(rt; same);
    let names = policy.into_names();
    assert!(rt; names.len() == 3);
}

// Whether a set statement of the module m and of one name sets that attribute there.
fn is_set(view: Option<SetView<'_>>, attribute: &[u8], offset: u32) -> bool {
    match view {
        Some(view) => {
            view.module == b"m".as_slice()
                && view.attribute == attribute
                && view.at.offset == offset
                && view.names == 1
        }
        None => false,
    }
}

// Of two set statements the first depends on the second.
fn has_sets(policy: &Resolved) -> bool {
    lengths(policy) == [2, 2, 1, 0, 0, 2, 6]
        && is_set(policy.set_at(0), b"s", 80)
        && is_set(policy.set_at(1), b"n", 50)
        && policy.set_at(2).is_none()
        && policy.set_attribute(0) == Some(4)
        && policy.attribute_number(0) == Some(4)
        && policy.type_number(1) == Some(1)
        && policy.set_names(0).first().copied() == Some(Element::Type(0))
}

// Names, some of which are there, by their numbers, and whether set statements may hold any type.
fn has_numbers(policy: &Resolved) -> bool {
    policy.names_len() > 4
        && policy.name(4) == b"s".as_slice()
        && policy.number(b"a") == Some(0)
        && policy.number(b"use") == Some(5)
        && policy.number(b"us") == None
        && policy.number(b"z") == None
        && !policy.may_hold_any(0)
        && policy.may_hold_any(1)
}

// Whether a set statement holds a type that no attribute has.
fn holds(policy: &Resolved, set: usize, ty: usize, meter: &mut Meter) -> bool {
    policy.evaluate(set, ty, |_| false, meter)
}

// Which of the two set statements hold such types, and how often they were evaluated and counters adjusted.
fn evaluated(policy: &Resolved) -> ([bool; 3], u128, u128) {
    let mut meter = Meter::new();
    let held = [
        holds(policy, 0, 0, &mut meter),
        holds(policy, 0, 1, &mut meter),
        holds(policy, 1, 1, &mut meter),
    ];
    (held, meter.evaluations(), meter.adjustments())
}

#[test]
fn set_statements_in_the_order_of_dependence(rt: HostRuntime) {
    let policy = resolved(&rt, rt.alloc(), SETS, b"(class p (use))");
    let same = has_sets(&policy) && has_numbers(&policy);
    assert!(rt; same);
    let same = evaluated(&policy) == ([true, false, true], 3, 0);
    assert!(rt; same);
}

// Whether a statement of the module m gives the set s permissions of that class, and names so many.
fn is_permission_set(view: Option<PermissionSetView<'_>>, class: &[u8], named: usize) -> bool {
    match view {
        Some(view) => {
            view.module == b"m".as_slice()
                && view.set == b"s".as_slice()
                && view.class == class
                && view.permissions == named
        }
        None => false,
    }
}

// The two statements of the set, of which the second names a permission.
fn has_permission_sets(policy: &Resolved) -> bool {
    policy.permission_sets_len() == 2
        && is_permission_set(policy.permission_set_at(0), b"g", 0)
        && is_permission_set(policy.permission_set_at(1), b"f", 1)
        && policy.permission_set_at(2).is_none()
        && policy.permission_set_permission(1, 0) == Some(b"w".as_slice())
        && policy.permission_set_permission(0, 0) == None
}

// Which of four permissions a rule permits: w and r of f, x of g and r of g.
fn permitted(policy: &Resolved, rule: usize) -> [bool; 4] {
    [
        policy.permits(rule, b"f", b"w"),
        policy.permits(rule, b"f", b"r"),
        policy.permits(rule, b"g", b"x"),
        policy.permits(rule, b"g", b"r"),
    ]
}

// The names are a, f, g, r, s, w and x, and the set gives r of f and x of g.
const GIVEN: &[ClassPermission] = &[
    ClassPermission {
        class: 1,
        permission: 3,
    },
    ClassPermission {
        class: 2,
        permission: 6,
    },
];

// Whether the first rule is one of the set s, and has what it gives.
fn has_rule_of_set(policy: &Resolved) -> bool {
    let (Some(rule), Some(view)) = (policy.rules().first(), policy.rule_at(0)) else {
        return false;
    };
    let is_given = match &rule.permissions {
        ResolvedPermissions::OfSet(set) => set.as_slice() == GIVEN,
        ResolvedPermissions::OfClass(_) => false,
    };
    is_given
        && matches!(view.permissions, PermissionsView::OfSet(set) if set == b"s".as_slice())
        && policy.rule_permission(0, 0) == None
}

#[test]
fn rules_of_a_permission_set_and_of_a_class(rt: HostRuntime) {
    let policy = resolved(&rt, rt.alloc(), PERMISSION_SETS, RULES_OF_BOTH);
    let same = has_permission_sets(&policy) && has_rule_of_set(&policy);
    assert!(rt; same);
    let of_both = [permitted(&policy, 0), permitted(&policy, 1)];
    assert!(rt; of_both == [[false, true, true, false], [true, true, false, false]]);
    let of_none = permitted(&policy, 2);
    assert!(rt; of_none == [false, false, false, false]);
}
