//! The attributes whose members changed.

ghost use Rattle.std.specs.Prelude.{◌≡◌, ◌<◌, ◌==◌, ◌||◌, ℕ, IsTrue, true, length, IfOk};
ghost use Rattle.cil_resolve.specs.Below.{is_element_below, is_rule_below, is_target_below};
ghost use Rattle.cil_table_updates.specs.Changed.{StaysElement, StaysReach, StaysRow, StaysTarget, is_marked};

use cil_member_rows::MemberRows;
use cil_resolve::{Element, NumberedRule, ResolvedTarget};
use cil_rule_reach::symbol_of;
use cil_symbols::Numbering;
use std::alloc::{AllocError, Allocator, Global};
use std::marker::Model;

/// For each symbol whether it is that of an attribute that has other members than before the steps.
#[derive(Drop)]
pub struct ChangedRows<'r, A: Allocator = Global> {
    rows: &'r MemberRows<A>,
    marks: Vec<bool, A>,
}

impl<'r, A: Allocator> Model for ChangedRows<'r, A> {
    ghost use Rattle.cil_recorded.specs.Recorded.{State};
    ghost use Rattle.cil_table_updates.specs.Changed.{MarksWhatChanged};

    ghost Value = { State };

    ghost view = { λ c. c.rows.now };

    ghost invariant = { λ c. MarksWhatChanged c.rows.now c.marks.items };
}

/// Marks the row of a change.
fn mark(marks: &mut [bool], row: usize)
    ensures len { length marks.new ≡ length marks.old }
    ensures marked { (a : ℕ) → a < length marks.old
        → is_marked marks.new a ≡ (is_marked marks.old a || (row == a)) }
{
    if row < marks.len() {
        marks[row] = true;
    }
}

impl<'r, A: Allocator + Copy> ChangedRows<'r, A> {
    /// The rows that changed, of so many symbols. The others are taken to have changed.
    pub fn of(alloc: A, rows: &'r MemberRows<A>, symbols: usize) -> Result<Self, AllocError>
        ensures { IfOk result (λ changed. changed ≡ rows.now) }
    {
        let changes = rows.changes(alloc)?;
        let mut marks = vec![in alloc; false; symbols]?;
        for change in &changes {
            mark(&mut marks, change.line);
        }
        Ok(ChangedRows { rows, marks })
    }
}

impl<A: Allocator> ChangedRows<'_, A> {
    /// Whether the attribute of a symbol has the same members as before the steps. No is the answer
    /// where it may have others.
    pub fn stays(&self, symbol: usize) -> bool
        ensures { result ≡ true → StaysRow self.now symbol }
    {
        match self.marks.get(symbol) {
            Some(marked) => !*marked,
            None => false,
        }
    }

    /// Whether an element of a policy holds the same types as before the steps.
    fn element_stays(&self, numbering: &Numbering<A>, element: Element) -> bool
        requires { IsTrue (is_element_below (length numbering.now.symbols) element) }
        ensures { result ≡ true → StaysElement self.now numbering.now.symbols element }
    {
        match element {
            Element::Type(_) => true,
            Element::Attribute(attribute) => self.stays(symbol_of(numbering, attribute as usize)),
        }
    }

    /// Whether a target of a policy takes in the same types as before the steps.
    fn target_stays(&self, numbering: &Numbering<A>, target: ResolvedTarget) -> bool
        requires { IsTrue (is_target_below (length numbering.now.symbols) target) }
        ensures { result ≡ true → StaysTarget self.now numbering.now.symbols target }
    {
        match target {
            ResolvedTarget::Itself => true,
            ResolvedTarget::Element(element) => self.element_stays(numbering, element),
        }
    }

    /// Whether a rule of a policy reaches the same as before the steps. No is the answer where it
    /// may reach something else.
    pub fn reach_stays(&self, numbering: &Numbering<A>, rule: &NumberedRule<A>) -> bool
        requires { IsTrue (is_rule_below (length numbering.now.symbols) rule.now) }
        ensures { result ≡ true → StaysReach self.now numbering.now.symbols rule.now }
    {
        let source = self.element_stays(numbering, rule.source);
        let target = self.target_stays(numbering, rule.target);
        source & target
    }
}
