//! Laws of projections: what stands in them, and that they can be read. They have no code.

ghost use Rattle.std.specs.Prelude.{◌≡◌, ◌≤◌, ℕ, true, false, List, length};
ghost use Rattle.std.specs.List.{AllByRecursion};
ghost use Rattle.cil_specs.specs.Shape.{IsShapeFault, is_among, keywords};
ghost use Rattle.cil_specs.specs.TextFault.{TextFault, unsupported};
ghost use Rattle.cil_specs.specs.Trees.{Trees, Reads};
ghost use Rattle.cil_projection.specs.Pieces.{rendered};
ghost use Rattle.cil_projection.specs.Conditions.{Settings};
ghost use Rattle.cil_projection.specs.Statements.{projected};
ghost use Rattle.cil_projection.specs.Readings.{HasSource, HasStatement, IsUnprojectedInText, IsRead, depth, projected_trees, without_places};

/// What a projection has of a text as it is stands between statements, but not in a branch of a `tunableif`. Or it is a statement that is
/// not projected, since it fits no form or its condition has no value, or a rule of a branch that is taken.
pub fn copies_have_sources()
    ensures { (settings : Settings) (trees : Trees) (size : ℕ) →
        AllByRecursion (HasSource settings trees size) (projected settings true 0 trees size) }
{}

/// The projection of a text spells the trees of its projection, unless its lists are nested too deep: they are at most two deeper than those
/// of the text. It spells no others.
pub fn projections_are_read()
    ensures read { (settings : Settings) (text : List ℕ) (trees : Trees) → Reads text trees
        → depth (projected_trees settings true trees) ≤ 256 → IsRead settings text trees }
    ensures shallow { (settings : Settings) (text : List ℕ) (trees : Trees) → Reads text trees
        → depth trees ≤ 254 → IsRead settings text trees }
    ensures same { (settings : Settings) (text : List ℕ) (trees found : Trees) → Reads text trees
        → Reads (rendered text (projected settings true 0 trees (length text))) found
        → without_places found ≡ projected_trees settings true trees }
{}

/// What stands as a statement in what a projection spells, and has no first word of the language, is a statement of the text that is not
/// projected. So no fault 20 is new.
pub fn no_new_faults()
    ensures statements { (settings : Settings) (text : List ℕ) (trees found : Trees) →
        Reads text trees
        → Reads (rendered text (projected settings true 0 trees (length text))) found
        → (word : List ℕ) (arguments : Trees) → HasStatement word arguments (without_places found)
        → is_among keywords word ≡ false
        → IsUnprojectedInText settings trees (length text) word arguments }
    ensures faults { (settings : Settings) (text : List ℕ) (trees found : Trees) → Reads text trees
        → Reads (rendered text (projected settings true 0 trees (length text))) found
        → (fault : TextFault) → IsShapeFault false found fault → fault.kind ≡ unsupported
        → (arguments : Trees) × IsUnprojectedInText settings trees (length text) fault.word arguments }
{}
