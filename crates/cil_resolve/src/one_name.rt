//! Set expressions of one name, by their nodes.

ghost use Rattle.std.specs.Prelude.{◌≡◌, ◌↔◌, ◌∷◌, [], IsTrue};
ghost use Rattle.cil_parse.specs.declared.row.SetNode.TheVariants as nodes;

use cil_parse::SetNode;

/// Whether an expression is one name alone.
pub fn is_name(spelling: &[SetNode]) -> bool
    ensures { IsTrue result ↔ (spelling.now ≡ nodes.Name ∷ []) }
{
    matches!(spelling, [SetNode::Name])
}

/// Whether it is a list whose only element is one name.
pub fn is_list_of_name(spelling: &[SetNode]) -> bool
    ensures { IsTrue result ↔ (spelling.now ≡ nodes.Element ∷ nodes.Name ∷ nodes.Nothing ∷ []) }
{
    matches!(
        spelling,
        [SetNode::Element, SetNode::Name, SetNode::Nothing]
    )
}
