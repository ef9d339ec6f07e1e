//! The permissions that rules, and statements of permission sets, give of their classes.

ghost use Rattle.std.specs.Prelude.{◌≡◌, ◌==◌, ℕ, not, filter, length, List, Some, slice_get, IfOk, IsTrue, OnOk};
ghost use Rattle.cil_specs.specs.Rule.{class_name};
ghost use Rattle.cil_parse.specs.Forms.{is_plain};
ghost use Rattle.cil_expression.specs.Expression.{expr_in};
ghost use Rattle.cil_resolve.specs.Common.{Word, WordExpr, Placed, holds_by, IsIn, IsLowering, NamesAt, PermitsAt, WritesPermissions, IsSpeltBy, ArePermissions, StayKnown};
ghost use Rattle.cil_resolve.specs.Numbers.{written_in, is_no_list};

use crate::known_permissions::KnownPermissions;
use crate::lowering::Lowering;
use crate::numbered::NumberedPermissions;
use crate::permission_numbers::PermissionNumbers;
use cil_check::Seen;
use cil_expression::Expression;
use std::alloc::{AllocError, Allocator};

/// Those of some permissions that an expression holds.
fn held<A: Allocator + Copy>(
    alloc: A,
    permissions: &[usize],
    expression: &Expression<usize, A>,
) -> Result<Vec<usize, A>, AllocError>
    ensures { IfOk result (λ given. given.items
        ≡ filter (λ p. holds_by (λ q. p == q) (expr_in expression.now)) permissions.now) }
{
    let mut given = Vec::new(alloc);
    for number in permissions {
        let permission = *number;
        let holds = expression.holds(
            |named|
                ensures { result ≡ (permission == named) }
            { permission == named },
        );
        if holds {
            given.push(permission)?;
        }
    }
    Ok(given)
}

impl<A: Allocator + Copy> NumberedPermissions<A> {
    /// Those of the permissions of a class that an expression holds, which is kept.
    fn of_expression(
        alloc: A,
        class: usize,
        permissions: &[usize],
        expression: Expression<usize, A>,
    ) -> Result<Self, AllocError>
        ensures class { IfOk result (λ p. p.class ≡ class) }
        ensures given { IfOk result (λ p. p.given
            ≡ filter (λ n. holds_by (λ q. n == q) (expr_in expression)) permissions.now) }
        ensures written { IfOk result (λ p. written_in p ≡ expr_in expression) }
        ensures no_list { IfOk result (λ p. is_no_list p.written ≡ not (is_plain (expr_in expression))) }
    {
        let given = held(alloc, permissions, &expression)?;
        Ok(NumberedPermissions {
            class,
            given: PermissionNumbers::new(alloc, &given)?,
            written: Some(Box::new(alloc, expression)?),
        })
    }
}

impl<'l, 'p, 'm, A: Allocator + Copy> Lowering<'l, 'p, 'm, A> {
    /// The expression of a statement's permissions, which are no plain list.
    fn permission_expression(
        &self,
        seen: &Seen<'p, 'm, A>,
    ) -> Result<Expression<usize, A>, AllocError>
        requires { (policy : List Placed) × (s : Placed) × (k : ℕ) × (the_class : Word) × (permissions : WordExpr)
            × IsIn self.now seen.now policy s × WritesPermissions s.form k the_class permissions }
        ensures { IfOk result (λ e. (policy : List Placed) (s : Placed) (k : ℕ) (the_class : Word) (permissions : WordExpr)
            → IsIn self.now seen.now policy s → WritesPermissions s.form k the_class permissions
            → IsSpeltBy self.now.numbering.now.names.items (expr_in e) permissions) }
    {
        let nodes = Vec::from_slice(self.alloc, seen.view.nodes)?;
        let names = self.permissions(seen)?;
        Ok(Expression::new(nodes, names))
    }

    /// The permissions of a statement, which are no plain list, and whose class is the reference of a number: it gives those of the class
    /// that the expression holds.
    fn written_permissions(
        &self,
        seen: &Seen<'p, 'm, A>,
        k: usize,
    ) -> Result<NumberedPermissions<A>, AllocError>
        requires { (policy : List Placed) × (s : Placed) × (the_class : Word) × (permissions : WordExpr)
            × IsIn self.now seen.now policy s × WritesPermissions s.form k the_class permissions }
        ensures { IfOk result (λ p. (policy : List Placed) (s : Placed) (the_class : Word) (permissions : WordExpr)
            → IsIn self.now seen.now policy s → WritesPermissions s.form k the_class permissions
            → ArePermissions self.now.numbering.now.names.items policy (class_name policy s.namespace the_class) permissions p) }
    {
        let expression = self.permission_expression(seen)?;
        let place = seen.lead(k).unwrap_or(0);
        let of_class = self.class_permissions(place)?;
        let class = self.number(seen, k);
        let permissions = NumberedPermissions::of_expression(
            self.alloc, class, &of_class, expression,
        )?;
        Ok(permissions)
    }

    /// The permissions of the statement of a place, which are no plain list, and whose class is the reference of a number. Few statements
    /// have such permissions, so they are looked at anew.
    #[inline(never)]
    fn written_at(&self, i: usize, k: usize) -> Result<NumberedPermissions<A>, AllocError>
        requires { (policy : List Placed) × (s : Placed) × (the_class : Word) × (permissions : WordExpr)
            × IsLowering self.now policy × (slice_get policy i ≡ Some s) × WritesPermissions s.form k the_class permissions }
        ensures { IfOk result (λ p. (policy : List Placed) (s : Placed) (the_class : Word) (permissions : WordExpr)
            → IsLowering self.now policy → slice_get policy i ≡ Some s → WritesPermissions s.form k the_class permissions
            → ArePermissions self.now.numbering.now.names.items policy (class_name policy s.namespace the_class) permissions p) }
    {
        let seen = self.seen(i);
        self.written_permissions(&seen, k)
    }

    /// The permissions of the statement of a place, whose class is the reference of a number.
    #[inline(always)]
    pub(crate) fn statement_permissions(
        &self,
        known: &mut KnownPermissions<A>,
        seen: &Seen<'p, 'm, A>,
        i: usize,
        k: usize,
    ) -> Result<NumberedPermissions<A>, AllocError>
        requires { NamesAt self.now seen.now i k }
        ensures permissions { IfOk result (PermitsAt self.now seen.now known.old i k) }
        ensures known { OnOk result (StayKnown self.now known.old known.new) }
    {
        if !seen.view.nodes.is_empty() {
            return self.written_at(i, k);
        }
        self.plain_permissions(known, seen, i, k)
    }

    /// The same, where they are a plain list.
    #[inline(always)]
    pub(crate) fn plain_permissions(
        &self,
        known: &mut KnownPermissions<A>,
        seen: &Seen<'p, 'm, A>,
        i: usize,
        k: usize,
    ) -> Result<NumberedPermissions<A>, AllocError>
        requires is { NamesAt self.now seen.now i k }
        requires plain { IsTrue (length seen.now.view.nodes.now == 0) }
        ensures permissions { IfOk result (PermitsAt self.now seen.now known.old i k) }
        ensures known { OnOk result (StayKnown self.now known.old known.new) }
    {
        Ok(NumberedPermissions {
            class: self.number(seen, k),
            given: self.shared_permissions(known, i)?,
            written: None,
        })
    }
}
