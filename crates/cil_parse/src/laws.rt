//! Laws of the statements of a module one behind the other.

ghost use Rattle.std.specs.Prelude.{ℕ, [], List};
ghost use Rattle.cil_parse.specs.Common.{Statements, flat};
ghost use Rattle.cil_specs.specs.Joined.{placed};
ghost use Rattle.cil_parse.specs.Around.{ArePlacedAs};

/// The statements that a parsed module shows are those of its joined policy, with the namespaces and the optionals around each.
pub fn statements_are_placed()
    ensures { (name : List ℕ) (statements : Statements) → ArePlacedAs (placed name [] [] statements) 0 (flat 0 0 0 statements) (placed name [] [] statements) }
{}
