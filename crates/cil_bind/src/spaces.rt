//! The namespaces from which the statements of modules look up.

ghost use Rattle.std.specs.Prelude.{◌≡◌, ◌<◌, ◌^◌, [], ℕ, List, length, IfOk, OnOk};
ghost use Rattle.cil_bind.specs.Common.{AreSpelt, StandsFor, AreSpaced, AreBlockSpaces, citations_of, Comes};
ghost use Rattle.cil_specs.specs.Joined.{Module, joined as joined_policy};

use crate::joined::Joined;
use crate::scope::Scope;
use cil_names::in_32_bits;
use cil_parse::{Lists, ParsedModule};
use std::alloc::{AllocError, Allocator};

impl<'m, A: Allocator + Copy> Scope<'m, A> {
    /// Puts the namespaces from which the statements of a module look up in a list of their own. Its statements begin at a place.
    fn add_spaces(
        &self,
        start: u32,
        module: &ParsedModule<A>,
        spaces: &mut Lists<u32, A>,
    ) -> Result<(), AllocError>
        requires closed { spaces.old.1 ≡ [] }
        ensures closed { OnOk result (spaces.new.1 ≡ []) }
        ensures added { OnOk result (Comes (AreBlockSpaces self.now.rows.items (length self.now.namespaces) start (citations_of «module».now))
            spaces.old.0 spaces.new.0) }
    {
        for citation in module.citations() {
            spaces.push(self.around(start as usize, citation.block))?;
        }
        spaces.close()?;
        Ok(())
    }

    /// For each module the namespace from which each of what its statements look up is looked up.
    pub fn spaces(&self, alloc: A, joined: &Joined<'m, A>) -> Result<Lists<u32, A>, AllocError>
        requires { (modules : List Module) × AreSpelt joined.now.modules.items modules × StandsFor self.now (joined_policy modules) }
        ensures long { IfOk result (λ spaces. length spaces.0 ≡ length joined.now.modules.items) }
        ensures spaced { IfOk result (λ spaces. AreSpaced self.now.names self.now.namespaces joined.now.modules.items spaces.0) }
    {
        let mut spaces = Lists::with_capacity(alloc, joined.modules.len(), 0)?;
        let mut start: usize = 0;
        for i in 0..joined.modules.len() {
            let module = joined.modules[i].module;
            self.add_spaces(in_32_bits(start)?, module, &mut spaces)?;
            let Some(next) = start.checked_add(module.len()) else {
                return Err(AllocError);
            };
            start = next;
        }
        Ok(spaces)
    }
}
