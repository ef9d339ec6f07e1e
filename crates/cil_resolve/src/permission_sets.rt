//! The statements of permission sets, by the numbers of their names.

ghost use Rattle.std.specs.Prelude.{◌≡◌, ◌<◌, ◌++◌, ◌∷◌, [], List, Some, flat_map, length, slice_get, IfOk, OnOk};
ghost use Rattle.cil_resolve.specs.Common.{Placed, IsIn, IsLowering, IsPermissionSet, ArePermissionSets, AreNaming, KnowNumbers, SeenAt, StayKnown, modules_of, permission_set_if};
ghost use Rattle.cil_specs.specs.Rule.{permission_sets_of};

use crate::known_permissions::KnownPermissions;
use crate::lowering::Lowering;
use crate::numbered::NumberedPermissionSet;
use cil_check::Seen;
use cil_parse::StatementKind;
use std::alloc::{AllocError, Allocator};

impl<'l, 'p, 'm, A: Allocator + Copy> Lowering<'l, 'p, 'm, A> {
    /// The statement of a place, which is one of a permission set.
    fn permission_set(
        &self,
        known: &mut KnownPermissions<A>,
        seen: &Seen<'p, 'm, A>,
        i: usize,
    ) -> Result<NumberedPermissionSet<A>, AllocError>
        requires { SeenAt self.now seen.now i IsPermissionSet }
        ensures set { IfOk result (λ set. (policy : List Placed) (s : Placed) → IsIn self.now seen.now policy s
            → slice_get policy i ≡ Some s → IsPermissionSet s.form → KnowNumbers self.now known.old policy
            → ArePermissionSets (modules_of self.now.checker.now.bound.joined.now) self.now.numbering.now.names.items
            policy (set ∷ []) (permission_set_if policy s)) }
        ensures known { OnOk result (StayKnown self.now known.old known.new) }
    {
        Ok(NumberedPermissionSet {
            module: self.module(i),
            at: seen.view.at,
            set: self.number(seen, 0),
            permissions: self.statement_permissions(known, seen, i, 1)?,
        })
    }

    /// Puts the statement of a place behind others, if it is one of a permission set. Only such a statement is looked at whole.
    fn add_permission_set(
        &self,
        known: &mut KnownPermissions<A>,
        sets: &mut Vec<NumberedPermissionSet<A>, A>,
        i: usize,
    ) -> Result<(), AllocError>
        requires { (policy : List Placed) × IsLowering self.now policy × (i < length policy) }
        ensures sets { OnOk result ((policy statements : List Placed) (s : Placed) → IsLowering self.now policy
            → slice_get policy i ≡ Some s → KnowNumbers self.now known.old policy
            → ArePermissionSets (modules_of self.now.checker.now.bound.joined.now) self.now.numbering.now.names.items
            policy sets.old.items (flat_map (permission_set_if policy) statements)
            → ArePermissionSets (modules_of self.now.checker.now.bound.joined.now) self.now.numbering.now.names.items
            policy sets.new.items (flat_map (permission_set_if policy) (statements ++ s ∷ []))) }
        ensures known { OnOk result (StayKnown self.now known.old known.new) }
    {
        let StatementKind::ClassPermissionSet = self.checker.bound.kind(i) else {
            return Ok(());
        };
        let seen = self.seen(i);
        let set = self.permission_set(known, &seen, i)?;
        sets.push(set)?;
        Ok(())
    }

    /// The statements of permission sets, in their order. They are among those of these places, and there is room for so many.
    pub(crate) fn permission_sets(
        &self,
        known: &mut KnownPermissions<A>,
        naming: &[u32],
        room: usize,
    ) -> Result<Vec<NumberedPermissionSet<A>, A>, AllocError>
        requires { (policy : List Placed) × IsLowering self.now policy × AreNaming policy naming.now }
        ensures sets { IfOk result (λ sets. (policy : List Placed) → IsLowering self.now policy
            → AreNaming policy naming.now → KnowNumbers self.now known.old policy
            → ArePermissionSets (modules_of self.now.checker.now.bound.joined.now) self.now.numbering.now.names.items
            policy sets.items (permission_sets_of policy)) }
        ensures known { OnOk result ((policy : List Placed) → IsLowering self.now policy
            → AreNaming policy naming.now → KnowNumbers self.now known.old policy → KnowNumbers self.now known.new policy) }
    {
        let mut sets = Vec::with_capacity(self.alloc, room)?;
        for k in 0..naming.len() {
            self.add_permission_set(known, &mut sets, naming[k] as usize)?;
        }
        Ok(sets)
    }
}
