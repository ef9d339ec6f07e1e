//! Where the statements stand that say what names stand for.

ghost use Rattle.std.specs.Prelude.{◌≡◌, ◌++◌, ◌∷◌, [], List, if◌then◌else◌, IfOk, OnOk};
ghost use Rattle.cil_resolve.specs.Common.{Placed, IsOf, AreNaming, is_naming};

use cil_check::BoundPolicy;
use cil_names::counted_in_32_bits;
use cil_parse::StatementKind;
use std::alloc::{AllocError, Allocator, Global};

/// How many statements of permission sets, set statements and rules there are. A list of them that grew would be copied.
#[derive(Drop)]
pub struct Room {
    pub permission_sets: usize,
    pub sets: usize,
    pub rules: usize,
}

/// The places of the statements that declare types, aliases, attributes, commons, classes and permission sets, and of those that say what
/// permission sets have, in their order. Most statements are others: rules and set statements, which are counted.
#[derive(Drop)]
pub struct Naming<A: Allocator = Global> {
    pub places: Vec<u32, A>,
    pub room: Room,
}

impl<A: Allocator> Naming<A> {
    /// Takes up the statement of a place, by its kind.
    fn add(&mut self, i: u32, kind: StatementKind) -> Result<(), AllocError>
        ensures { OnOk result (self.new.places.items ≡ self.old.places.items ++ (if is_naming kind then i ∷ [] else [])) }
    {
        match kind {
            StatementKind::Rule(_)
            | StatementKind::RuleToSelf(_)
            | StatementKind::RuleOfSet(_)
            | StatementKind::RuleToSelfOfSet(_) => {
                self.room.rules = self.room.rules.saturating_add(1);
            }
            StatementKind::TypeAttributeSet => {
                self.room.sets = self.room.sets.saturating_add(1);
            }
            StatementKind::ClassPermissionSet => {
                self.room.permission_sets = self.room.permission_sets.saturating_add(1);
                self.places.push(i)?;
            }
            StatementKind::TypeName
            | StatementKind::TypeAlias
            | StatementKind::TypeAttribute
            | StatementKind::Common
            | StatementKind::Class
            | StatementKind::ClassPermission => self.places.push(i)?,
            _ => {}
        }
        Ok(())
    }
}

impl<A: Allocator + Copy> Naming<A> {
    /// Those of a policy. One of more than 4294967295 statements is answered as out of memory.
    pub fn of(alloc: A, bound: &BoundPolicy<'_, '_, A>) -> Result<Self, AllocError>
        requires { (policy : List Placed) × IsOf bound.now policy }
        ensures { IfOk result (λ naming. (policy : List Placed) → IsOf bound.now policy → AreNaming policy naming.places.items) }
    {
        let count = bound.len();
        counted_in_32_bits(count)?;
        let mut naming = Naming {
            places: Vec::new(alloc),
            room: Room {
                permission_sets: 0,
                sets: 0,
                rules: 0,
            },
        };
        for i in 0..count {
            naming.add(i as u32, bound.kind(i))?;
        }
        Ok(naming)
    }
}
