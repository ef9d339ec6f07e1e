//! Laws of the definitions, which make the contract of `shape` exact. They have no code.

ghost use Rattle.std.specs.Prelude.{◌≡◌, ℕ, false, IsTrue};
ghost use Rattle.cil_text.specs.Common.{Shapes, IsShapeFault, IsFirstShapeFault, Statements, Trees, in_order};
ghost use Rattle.cil_specs.specs.TextFault.{TextFault};

/// Trees have not both statements and a shape fault.
pub fn statements_have_no_fault()
    ensures { (trees : Trees) (statements : Statements) (fault : TextFault) → Shapes false trees statements → IsShapeFault false trees fault → ⊥ }
{}

/// Trees spell one list of statements at most.
pub fn statements_are_one()
    ensures { (trees : Trees) (one other : Statements) → Shapes false trees one → Shapes false trees other → one ≡ other }
{}

/// Of trees in order the first shape fault is one.
pub fn first_fault_is_one()
    ensures { (trees : Trees) (high : ℕ) (one other : TextFault) → IsTrue (in_order 0 trees high) → IsFirstShapeFault trees one → IsFirstShapeFault trees other → one ≡ other }
{}
