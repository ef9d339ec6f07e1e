//! What is read of a resolved policy. It takes no memory.

ghost use Rattle.std.specs.Prelude.{◌≡◌, ◌<◌, ◌↔◌, false, Some, IfNone, IfSome, IsTrue, [], length, slice_get, slice_index_or, option_map};
ghost use Rattle.cil_resolve.specs.Common.{list_all, prefix_len, option_and_then, has_name, name_cmp, names_rise, is_rule_below, is_written_below, keeps_no_list, leaves, element_of, resolved_target_of, meaning_in, name_in, sets_in};
ghost use Rattle.std.specs.Ordering.{is_lt};
ghost use Rattle.cil_resolve.specs.Below.{is_set_below};
ghost use Rattle.cil_resolve.specs.Numbers.{resolved_permissions_of};
ghost use Rattle.cil_resolve.specs.SetOrder.{sets_at};
ghost use Rattle.cil_resolve.specs.Views.{declared_seen, class_seen, class_head, element_seen, named_in, permission_set_head, permission_set_seen, permissions_head, permissions_seen, resolved_target_seen, rule_seen, rule_head, set_seen, set_head};

use crate::numbered::{NumberedRule, NumberedSet, ResolvedPermissions, ResolvedTarget};
use crate::resolved::Resolved;
use crate::text::Text;
use cil_expression::Element;
use cil_text::{Place, RuleKind};
use std::alloc::Allocator;

/// A type, an attribute or an optional: the name of its module, the place of its statement, and its full name.
#[derive(Clone, Copy, Debug)]
pub struct NameView<'r> {
    pub module: &'r [u8],
    pub at: Place,
    pub name: &'r [u8],
}

/// A class, and how many permissions it has.
#[derive(Clone, Copy, Debug)]
pub struct ClassView<'r> {
    pub module: &'r [u8],
    pub at: Place,
    pub name: &'r [u8],
    pub permissions: usize,
}

/// What a name of a rule leads to, by its full name.
#[derive(Clone, Copy, Debug)]
pub enum ElementView<'r> {
    Type(&'r [u8]),
    Attribute(&'r [u8]),
}

/// A rule's target: each source itself, or what a name leads to.
#[derive(Clone, Copy, Debug)]
pub enum TargetView<'r> {
    Itself,
    Element(ElementView<'r>),
}

/// A rule's permissions by full names: of a class, and how many it names; or those of a permission set.
#[derive(Clone, Copy, Debug)]
pub enum PermissionsView<'r> {
    OfClass { class: &'r [u8], permissions: usize },
    OfSet(&'r [u8]),
}

/// A rule by full names.
#[derive(Clone, Copy, Debug)]
pub struct RuleView<'r> {
    pub module: &'r [u8],
    pub at: Place,
    pub kind: RuleKind,
    pub source: ElementView<'r>,
    pub target: TargetView<'r>,
    pub permissions: PermissionsView<'r>,
}

/// A statement of a permission set by full names, and how many permissions it names.
#[derive(Clone, Copy, Debug)]
pub struct PermissionSetView<'r> {
    pub module: &'r [u8],
    pub at: Place,
    pub set: &'r [u8],
    pub class: &'r [u8],
    pub permissions: usize,
}

/// A set statement by full names, and how many names its expression has.
#[derive(Clone, Copy, Debug)]
pub struct SetView<'r> {
    pub module: &'r [u8],
    pub at: Place,
    pub attribute: &'r [u8],
    pub names: usize,
}

impl<A: Allocator> Resolved<A> {
    /// The name of a module, by its place; empty where there is none.
    pub fn module(&self, i: usize) -> &[u8]
        ensures { result.now ≡ slice_index_or self.now.modules.items i [] }
    {
        match self.modules.get(i) {
            Some(name) => name.as_slice(),
            None => b"",
        }
    }

    /// How many names there are: of types, attributes, classes, permission sets and permissions.
    pub fn names_len(&self) -> usize
        ensures { result ≡ length self.now.names.items }
    {
        self.names.len()
    }

    /// The names in the order of their bytes, each at the place of its number.
    pub fn names(&self) -> &[Text<A>]
        ensures { result.now ≡ self.now.names.items }
    {
        &self.names
    }

    /// A name by its number, which is its place in the order of the bytes; empty where there is none.
    pub fn name(&self, i: usize) -> &[u8]
        ensures { result.now ≡ slice_index_or self.now.names.items i [] }
    {
        match self.names.get(i) {
            Some(name) => name.as_slice(),
            None => b"",
        }
    }

    /// How many names stand before one in the order of the bytes.
    fn place(&self, name: &[u8]) -> usize
        ensures { result ≡ prefix_len (λ other. is_lt (name_cmp other name.now)) self.now.names.items }
    {
        self.names.as_slice().partition_point(
            |other: &Text<A>| -> bool
                ensures { result ≡ is_lt (name_cmp other.now name.entry.now) }
            { other.as_slice().cmp(name).is_lt() },
        )
    }

    /// Whether a name has this number.
    fn is_number(&self, i: usize, name: &[u8]) -> bool
        ensures { IsTrue result ↔ (slice_get self.now.names.items i ≡ Some name.now) }
    {
        match self.names.get(i) {
            Some(other) => other.as_slice() == name,
            None => false,
        }
    }

    /// The number of a name, if it is among the names. Its time goes with the logarithm of their number.
    pub fn number(&self, name: &[u8]) -> Option<usize>
        ensures some { IfSome result (λ n. slice_get self.now.names.items n ≡ Some name.now) }
        ensures none { IfNone result (has_name self.now.names.items name.now ≡ false) }
    {
        let place = self.place(name);
        if self.is_number(place, name) {
            Some(place)
        } else {
            None
        }
    }

    fn element(&self, element: Element) -> ElementView<'_>
        ensures { element_seen result ≡ element_of self.now.names.items element }
    {
        match element {
            Element::Type(i) => ElementView::Type(self.name(i as usize)),
            Element::Attribute(i) => ElementView::Attribute(self.name(i as usize)),
        }
    }

    fn aim(&self, aim: ResolvedTarget) -> TargetView<'_>
        ensures { resolved_target_seen result ≡ resolved_target_of self.now.names.items aim }
    {
        match aim {
            ResolvedTarget::Itself => TargetView::Itself,
            ResolvedTarget::Element(element) => TargetView::Element(self.element(element)),
        }
    }

    fn permissions(&self, permissions: &ResolvedPermissions<A>) -> PermissionsView<'_>
        ensures { permissions_seen result ≡ permissions_head (resolved_permissions_of self.now.names.items permissions.now) }
    {
        match permissions {
            ResolvedPermissions::OfClass(of_class) => PermissionsView::OfClass {
                class: self.name(of_class.class),
                permissions: of_class.named_permissions().len(),
            },
            ResolvedPermissions::OfSet(of_set) => PermissionsView::OfSet(self.name(of_set.set)),
        }
    }

    /// How many types there are.
    pub fn types_len(&self) -> usize
        ensures { result ≡ length (meaning_in self.now).types }
    {
        self.types.len()
    }

    /// The type at a place, in the order of the statements.
    pub fn type_at(&self, i: usize) -> Option<NameView<'_>>
        ensures { option_map declared_seen result ≡ slice_get (meaning_in self.now).types i }
    {
        let declared = self.types.get(i)?;
        Some(NameView {
            module: self.module(declared.module as usize),
            at: declared.at,
            name: self.name(declared.name),
        })
    }

    /// The number of the name of the type at a place.
    pub fn type_number(&self, i: usize) -> Option<usize>
        ensures name { option_map (name_in self.now) result ≡ option_map (λ d. d.name) (slice_get (meaning_in self.now).types i) }
        ensures below { IfSome result (λ n. n < length self.now.names.items) }
    {
        let found = self.types.get(i)?;
        Some(found.name)
    }

    /// How many attributes there are.
    pub fn attributes_len(&self) -> usize
        ensures { result ≡ length (meaning_in self.now).attributes }
    {
        self.attributes.len()
    }

    /// The attribute at a place, in the order of the statements.
    pub fn attribute_at(&self, i: usize) -> Option<NameView<'_>>
        ensures { option_map declared_seen result ≡ slice_get (meaning_in self.now).attributes i }
    {
        let declared = self.attributes.get(i)?;
        Some(NameView {
            module: self.module(declared.module as usize),
            at: declared.at,
            name: self.name(declared.name),
        })
    }

    /// The number of the name of the attribute at a place.
    pub fn attribute_number(&self, i: usize) -> Option<usize>
        ensures name { option_map (name_in self.now) result ≡ option_map (λ d. d.name) (slice_get (meaning_in self.now).attributes i) }
        ensures below { IfSome result (λ n. n < length self.now.names.items) }
    {
        let found = self.attributes.get(i)?;
        Some(found.name)
    }

    /// How many classes there are.
    pub fn classes_len(&self) -> usize
        ensures { result ≡ length (meaning_in self.now).classes }
    {
        self.classes.len()
    }

    /// The class at a place, in the order of the statements.
    pub fn class_at(&self, i: usize) -> Option<ClassView<'_>>
        ensures { option_map class_seen result ≡ option_map class_head (slice_get (meaning_in self.now).classes i) }
    {
        let class = self.classes.get(i)?;
        Some(ClassView {
            module: self.module(class.module as usize),
            at: class.at,
            name: self.name(class.name),
            permissions: class.permissions.len(),
        })
    }

    /// A permission of the class at a place.
    pub fn class_permission(&self, i: usize, k: usize) -> Option<&[u8]>
        ensures { option_map (λ name. name.now) result ≡ option_and_then (λ c. slice_get c.permissions k) (slice_get (meaning_in self.now).classes i) }
    {
        let class = self.classes.get(i)?;
        let permission = class.permissions.get(k)?;
        Some(self.name(*permission))
    }

    /// How many statements of permission sets there are.
    pub fn permission_sets_len(&self) -> usize
        ensures { result ≡ length (meaning_in self.now).permission_sets }
    {
        self.permission_sets.len()
    }

    /// The statement of a permission set at a place, in the order of the statements.
    pub fn permission_set_at(&self, i: usize) -> Option<PermissionSetView<'_>>
        ensures { option_map permission_set_seen result
            ≡ option_map permission_set_head (slice_get (meaning_in self.now).permission_sets i) }
    {
        let statement = self.permission_sets.get(i)?;
        Some(PermissionSetView {
            module: self.module(statement.module as usize),
            at: statement.at,
            set: self.name(statement.set),
            class: self.name(statement.permissions.class),
            permissions: statement.permissions.named_permissions().len(),
        })
    }

    /// A permission that the statement of a permission set at a place names.
    pub fn permission_set_permission(&self, i: usize, k: usize) -> Option<&[u8]>
        ensures { option_map (λ name. name.now) result
            ≡ option_and_then (λ s. slice_get (leaves s.permissions) k) (slice_get (meaning_in self.now).permission_sets i) }
    {
        let statement = self.permission_sets.get(i)?;
        let permission = statement.permissions.named_permissions().get(k)?;
        Some(self.name(*permission))
    }

    /// The set statement at a place, in the order of dependence.
    pub fn set_at(&self, i: usize) -> Option<SetView<'_>>
        ensures { option_map set_seen result ≡ option_map set_head (slice_get (sets_in self.now) i) }
    {
        let set = self.sets.at(i)?;
        Some(SetView {
            module: self.module(set.module as usize),
            at: set.at,
            attribute: self.name(set.attribute),
            names: set.expression.names().len(),
        })
    }

    /// The set statement at a place, in the order of dependence, by the numbers of its names.
    pub fn numbered_set(&self, i: usize) -> Option<&NumberedSet<A>>
        ensures set { option_map (λ set. set.now) result
            ≡ slice_get (sets_at self.now.sets.sets.items self.now.sets.order.items) i }
        ensures within { IfSome result (λ set.
            IsTrue (is_set_below (length self.now.names.items) set.now)) }
    {
        self.sets.at(i)
    }

    /// How many rules there are.
    pub fn rules_len(&self) -> usize
        ensures { result ≡ length (meaning_in self.now).rules }
    {
        self.rules.len()
    }

    /// The rule at a place, in the order of the statements.
    pub fn rule_at(&self, i: usize) -> Option<RuleView<'_>>
        ensures { option_map rule_seen result ≡ option_map rule_head (slice_get (meaning_in self.now).rules i) }
    {
        let rule = self.rules.get(i)?;
        Some(RuleView {
            module: self.module(rule.module as usize),
            at: rule.at,
            kind: rule.kind,
            source: self.element(rule.source),
            target: self.aim(rule.target),
            permissions: self.permissions(&rule.permissions),
        })
    }

    /// A permission that the rule at a place names of its class.
    pub fn rule_permission(&self, i: usize, k: usize) -> Option<&[u8]>
        ensures { option_map (λ name. name.now) result ≡ option_and_then (λ r. slice_get (named_in r.permissions) k) (slice_get (meaning_in self.now).rules i) }
    {
        let rule = self.rules.get(i)?;
        let permission = rule.permissions.named_permissions().get(k)?;
        Some(self.name(*permission))
    }

    /// How many optionals drop.
    pub fn dropped_len(&self) -> usize
        ensures { result ≡ length (meaning_in self.now).dropped }
    {
        self.dropped.len()
    }

    /// The optional at a place of those that drop, in the order of the statements.
    pub fn dropped_at(&self, i: usize) -> Option<NameView<'_>>
        ensures { option_map declared_seen result ≡ slice_get (meaning_in self.now).dropped i }
    {
        let dropped = self.dropped.get(i)?;
        Some(NameView {
            module: self.module(dropped.module as usize),
            at: dropped.at,
            name: dropped.name.as_slice(),
        })
    }

    /// The rules by the numbers of their names.
    pub fn rules(&self) -> &[NumberedRule<A>]
        ensures rules { result.now ≡ self.now.rules.items }
        ensures within { IsTrue (list_all (is_rule_below (length self.now.names.items)) result.now) }
        ensures written { IsTrue (list_all (is_written_below (length self.now.names.items)) result.now) }
        ensures no_lists { IsTrue (list_all keeps_no_list result.now) }
    {
        &self.rules
    }

    /// The names, in the order of their numbers, which is that of their bytes.
    pub fn into_names(self) -> Vec<Text<A>, A>
        ensures names { result.items ≡ self.names.items }
        ensures ordered { IsTrue (names_rise result.items) }
    {
        self.names
    }
}
