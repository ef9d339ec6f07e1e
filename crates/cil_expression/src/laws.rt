//! Laws of what expressions hold. They have no code.

ghost use Rattle.std.specs.Prelude.{◌≡◌, Bool, true, false, Contains};
ghost use Rattle.cil_specs.specs.Expr.{Expr, leaves};
ghost use Rattle.cil_expression.specs.Holds.{holds_by};
ghost use Rattle.cil_expression.specs.Same.{are_same};

/// What an expression holds goes by its names alone: where two values agree at them, they give the same.
pub fn names_decide<T>()
    ensures { (expr : Expr T) (value other : T → Bool)
        → ((name : T) → Contains (leaves expr) name → value name ≡ other name)
        → holds_by value expr ≡ holds_by other expr }
{}

/// An expression that holds nothing where none of its names does holds only what one of its names holds.
pub fn names_bound<T>()
    ensures { (expr : Expr T) (value : T → Bool) → holds_by (λ name. false) expr ≡ false
        → ((name : T) → Contains (leaves expr) name → value name ≡ false)
        → holds_by value expr ≡ false }
{}

/// Expressions that are the same hold the same, where names that are the same do.
pub fn same_hold_the_same<T>()
    ensures { (one other : Expr T) (same : T → T → Bool) (value others : T → Bool)
        → ((x y : T) → same x y ≡ true → value x ≡ others y)
        → are_same same one other ≡ true → holds_by value one ≡ holds_by others other }
{}
