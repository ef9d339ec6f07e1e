//! The permissions of classes, by numbers.

ghost use Rattle.std.specs.Prelude.{◌≡◌, ℕ, List, Some, fold, slice_get, IsTrue, IfOk, OnOk};
ghost use Rattle.cil_resolve.specs.Common.{Placed, commons, texts, with_name, own_permissions, distinct, permissions_of, IsLead, IsLowering, common_of, AreNumbersIn};
ghost use Rattle.cil_specs.specs.Rule.{is_class};
ghost use Rattle.cil_parse.specs.Forms.{kind_of};
ghost use Rattle.cil_check.specs.Permissions.{lists_own};

use crate::elements::lead_at;
use crate::lowering::Lowering;
use crate::words::number_at;
use std::alloc::{AllocError, Allocator};

impl<'l, 'p, 'm, A: Allocator + Copy> Lowering<'l, 'p, 'm, A> {
    /// Puts in the numbers of the permissions that the class or the common of a place lists, each once.
    pub(crate) fn add_listed(
        &self,
        permissions: &mut Vec<usize, A>,
        place: u32,
    ) -> Result<(), AllocError>
        requires { (policy : List Placed) × IsLowering self.now policy }
        ensures { OnOk result ((policy : List Placed) (s : Placed) (before : List (List ℕ)) → IsLowering self.now policy → slice_get policy place ≡ Some s → IsTrue (lists_own (kind_of s.form))
            → AreNumbersIn self.now.numbering.now.names.items before permissions.old.items
            → AreNumbersIn self.now.numbering.now.names.items (fold with_name before (texts (own_permissions s.form))) permissions.new.items) }
    {
        let listed = &self.checker.permissions.words;
        if place as usize >= listed.len() {
            return Ok(());
        }
        for word in listed.get(place as usize) {
            let number = number_at(&self.numbering.permissions, *word as usize) as usize;
            if !permissions.contains(&number) {
                permissions.push(number)?;
            }
        }
        Ok(())
    }

    /// The place of the common that a statement gives to the class of a place.
    fn common(&self, class: u32) -> Option<u32>
        requires { (policy : List Placed) × IsLowering self.now policy }
        ensures { (policy : List Placed) (s : Placed) → IsLowering self.now policy → slice_get policy class ≡ Some s → IsTrue (is_class s.form)
            → IsLead commons policy result (common_of policy s) }
    {
        let first = self.checker.commons.get(class)?;
        lead_at(&self.checker.bound, first, 1)
    }

    /// The numbers of the permissions of the class of a place, its common's included, each once.
    pub(crate) fn class_permissions(&self, class: u32) -> Result<Vec<usize, A>, AllocError>
        requires { (policy : List Placed) × IsLowering self.now policy }
        ensures { IfOk result (λ numbers. (policy : List Placed) (s : Placed) → IsLowering self.now policy → slice_get policy class ≡ Some s → IsTrue (is_class s.form)
            → AreNumbersIn self.now.numbering.now.names.items (distinct (permissions_of policy s)) numbers.items) }
    {
        let mut permissions = Vec::new(self.alloc);
        self.add_listed(&mut permissions, class)?;
        if let Some(common) = self.common(class) {
            self.add_listed(&mut permissions, common)?;
        }
        Ok(permissions)
    }
}
