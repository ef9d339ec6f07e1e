//! Names that are the same in pairs.

ghost use Rattle.std.specs.Prelude.{◌≡◌, Bool};
ghost use Rattle.cil_expression.specs.Same.{all_same, AnswersPairs};

/// Whether as many names stand on both sides, and each is the same as that across.
pub fn are_same_names<T: Copy, F: Fn(T, T) -> bool>(names: &[T], others: &[T], same: &F) -> bool
    requires callable { F.IsAlwaysCallable same.now }
    ensures { (pairs : T → T → Bool) → AnswersPairs (F.post same.now) names.now others.now pairs
        → result ≡ all_same pairs names.now others.now }
{
    let mut left = names;
    let mut right = others;
    while let Some((name, names_behind)) = left.split_first() {
        match right.split_first() {
            Some((other, others_behind)) => {
                if !same(*name, *other) {
                    return false;
                }
                left = names_behind;
                right = others_behind;
            }
            None => return false,
        }
    }
    right.is_empty()
}
