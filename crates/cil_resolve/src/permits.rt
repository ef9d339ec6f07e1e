//! The permissions that rules name, and those that they give.

ghost use Rattle.std.specs.Prelude.{◌≡◌, ◌∷◌, false, Some, None, [], bytes_eq, map, slice_get, slice_index_or};
ghost use Rattle.std.specs.List.{list_any};
ghost use Rattle.cil_resolve.specs.Common.{Rule, leaves, permits, meaning_in};
ghost use Rattle.cil_resolve.specs.Numbers.{given_in, has_named, named_numbers, written_in};

use crate::numbered::{NumberedPermissions, ResolvedPermissions};
use crate::resolved::Resolved;
use crate::set_permissions::ClassPermission;
use std::alloc::Allocator;

impl<A: Allocator> NumberedPermissions<A> {
    /// The permissions that are named, in the order of the text.
    pub fn named_permissions(&self) -> &[usize]
        ensures { result.now ≡ leaves (written_in self.now) }
    {
        match &self.written {
            Some(expression) => expression.names(),
            None => self.given.as_slice(),
        }
    }
}

impl<A: Allocator> ResolvedPermissions<A> {
    /// The permissions of a class that are named, in the order of the text; none where they are those of a permission set.
    pub fn named_permissions(&self) -> &[usize]
        ensures { result.now ≡ named_numbers self.now }
    {
        match self {
            ResolvedPermissions::OfClass(permissions) => permissions.named_permissions(),
            ResolvedPermissions::OfSet(_) => &[],
        }
    }
}

impl<A: Allocator> Resolved<A> {
    /// Whether a name is at one of these numbers.
    fn is_at(&self, numbers: &[usize], name: &[u8]) -> bool
        ensures { result ≡ list_any (bytes_eq name.now) (map (λ n. slice_index_or self.now.names.items n []) numbers.now) }
    {
        let mut left = numbers;
        while let Some((number, more)) = left.split_first() {
            if name == self.name(*number) {
                return true;
            }
            left = more;
        }
        false
    }

    /// Whether a permission of a class is, by their names.
    fn is_named(&self, given: ClassPermission, class: &[u8], permission: &[u8]) -> bool
        ensures { result ≡ has_named self.now.names.items (given ∷ []) class.now permission.now }
    {
        self.name(given.class) == class && permission == self.name(given.permission)
    }

    /// Whether a permission of a class is among some, by their names.
    fn has(&self, given: &[ClassPermission], class: &[u8], permission: &[u8]) -> bool
        ensures { result ≡ has_named self.now.names.items given.now class.now permission.now }
    {
        let mut left = given;
        while let Some((one, more)) = left.split_first() {
            if self.is_named(*one, class, permission) {
                return true;
            }
            left = more;
        }
        false
    }

    /// Whether a rule's permissions give a permission of a class.
    fn gives(&self, given: &ResolvedPermissions<A>, class: &[u8], permission: &[u8]) -> bool
        ensures { result ≡ has_named self.now.names.items (given_in given.now) class.now permission.now }
    {
        match given {
            ResolvedPermissions::OfClass(of_class) => {
                self.name(of_class.class) == class
                    && self.is_at(of_class.given.as_slice(), permission)
            }
            ResolvedPermissions::OfSet(of_set) => self.has(of_set.as_slice(), class, permission),
        }
    }

    /// Whether the rule at a place gives a permission of a class. It takes no memory. No is the answer where there is no such rule.
    pub fn permits(&self, i: usize, class: &[u8], permission: &[u8]) -> bool
        ensures value { (r : Rule) → slice_get (meaning_in self.now).rules i ≡ Some r → result ≡ permits (meaning_in self.now) r class.now permission.now }
        ensures none { slice_get (meaning_in self.now).rules i ≡ None → result ≡ false }
    {
        match self.rules.get(i) {
            Some(rule) => self.gives(&rule.permissions, class, permission),
            None => false,
        }
    }
}
