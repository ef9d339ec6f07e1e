//! Laws of the definitions. They have no code.

ghost use Rattle.std.specs.Prelude.{◌≡◌, ◌+◌, ◌≤◌, ◌∷◌, ◌++◌, ℕ, Bool, true, false, List, Some, IsTrue, codes, length};
ghost use Rattle.cil_specs.specs.Shape.{Shapes, is_among};
ghost use Rattle.cil_specs.specs.Statements.{Statements};
ghost use Rattle.cil_specs.specs.Trees.{Trees, Reads};
ghost use Rattle.cil_projection.specs.Conditions.{Settings, are_branches, first_value};
ghost use Rattle.cil_projection.specs.Forms.{forms};
ghost use Rattle.cil_projection.specs.Laws.{HasLanguageStatement, IsCopied, has_keywords, line_at, copies, rule_parts, branch_parts, trees_for, first_words, kind_words};
ghost use Rattle.cil_projection.specs.Pieces.{Piece, copied, taken, rendered};
ghost use Rattle.cil_projection.specs.declared.table.Table.TheVariants.{Tunables};
ghost use Rattle.cil_projection.specs.Statements.{Projects, projected, behind_first, condition_names, condition_value, conditional, tunable_projected};

/// A text of the language is projected onto itself, byte by byte, whatever is known of booleans: one that spells statements, and also one
/// in which each list begins with a word of the language, those in blocks and optionals too.
pub fn language_stays()
    ensures statements { (settings : Settings) (text : List ℕ) (trees : Trees)
        (statements : Statements) → Reads text trees → Shapes false trees statements
        → rendered text (projected settings true 0 trees (length text)) ≡ text }
    ensures keywords { (settings : Settings) (text : List ℕ) (trees : Trees) →
        Reads text trees → IsTrue (has_keywords trees)
        → rendered text (projected settings true 0 trees (length text)) ≡ text }
    ensures projection { (settings : Settings) (text bytes : List ℕ) (trees : Trees)
        (statements : Statements) → Reads text trees → Shapes false trees statements
        → Projects settings text bytes → bytes ≡ text }
{}

/// What stays of a text stands at its line: each byte of a piece that is copied, and the end of the piece.
pub fn lines_stay()
    ensures { (settings : Settings) (text : List ℕ) (trees : Trees)
        (front behind : List Piece) (from to k : ℕ) → Reads text trees
        → projected settings true 0 trees (length text) ≡ front ++ copied from to ∷ behind
        → from + k ≤ to
        → line_at (rendered text (front ++ copied from to ∷ behind))
        (length (rendered text front) + k) ≡ line_at text (from + k) }
{}

/// Each statement of the language that holds no others stays, in blocks and optionals too, whatever stands beside it. Statements in
/// branches of conditionals are not meant (see `taken_branch`).
pub fn statements_stay()
    ensures { (settings : Settings) (trees : Trees) (from to high : ℕ) →
        HasLanguageStatement trees from to → IsCopied from to (projected settings true 0 trees high) }
{}

/// What stands in place of a conditional statement. Of a `booleanif` the rules in the branch for its condition's value are copied, or those
/// in all branches where `both` is set, and nothing else is. Of a `tunableif` it is the projection of that branch, and the names of the
/// condition behind it.
pub fn taken_branch()
    ensures chosen { (settings : Settings) (from to : ℕ) (arguments : Trees) (holds : Bool)
        (pieces : List Piece) → settings.both ≡ false
        → condition_value settings arguments ≡ Some holds
        → conditional settings from to arguments ≡ Some pieces
        → copies pieces ≡ rule_parts (trees_for holds (behind_first arguments)) }
    ensures both { (settings : Settings) (from to : ℕ) (arguments : Trees)
        (pieces : List Piece) → settings.both ≡ true
        → conditional settings from to arguments ≡ Some pieces
        → copies pieces ≡ branch_parts (behind_first arguments) }
    ensures tunables { (settings : Settings) (from to : ℕ) (arguments : Trees) (holds : Bool) →
        first_value settings.value arguments ≡ Some holds
        → IsTrue (are_branches (behind_first arguments))
        → tunable_projected settings from to arguments
        ≡ projected settings false from (trees_for holds (behind_first arguments)) to
        ++ taken (codes "tunableif") ∷ condition_names Tunables arguments }
{}

/// The kinds of statements that `KINDS` lists are those that are taken by their names: their first words are those of the forms, and
/// `booleanif` and `tunableif`, and no others.
pub fn kinds_are_those_of_forms()
    ensures { (word : List ℕ) → is_among kind_words word
        ≡ is_among (codes "booleanif" ∷ codes "tunableif" ∷ first_words forms) word }
{}
