//! What an expression holds, from its nodes and its names in one run.

ghost use Rattle.std.specs.Prelude.{◌≡◌, false, length, ◌≤◌, ◌∷◌, IfSome, MatchOption};
ghost use Rattle.cil_expression.specs.Evaluation.{IsValue, AreValues, is_element, HasNoElement};
ghost use Rattle.cil_parse.specs.declared.row.SetNode.TheVariants as nodes;

use cil_parse::SetNode;

/// The nodes and the names that are still to come.
#[derive(Clone, Copy)]
pub(crate) struct Rest<'r, T: Copy> {
    pub(crate) nodes: &'r [SetNode],
    pub(crate) names: &'r [T],
}

/// Whether a list of elements goes on at a node.
fn is_element(node: &SetNode) -> bool
    ensures { result ≡ is_element node.now }
{
    matches!(node, SetNode::Element)
}

/// What stands behind the next node, where a list of elements goes on there.
fn behind_element<'r, T: Copy>(rest: Rest<'r, T>) -> Option<Rest<'r, T>>
    ensures { MatchOption result (HasNoElement rest.entry.nodes.now)
        (λ behind. (rest.entry.nodes.now ≡ nodes.Element ∷ behind.nodes.now)
        × (behind.names.now ≡ rest.entry.names.now)) }
{
    let (node, nodes) = rest.nodes.split_first()?;
    if is_element(node) {
        Some(Rest {
            nodes,
            names: rest.names,
        })
    } else {
        None
    }
}

/// What known answers of the next name.
fn name_value<'r, T: Copy, F: Fn(T) -> bool>(rest: Rest<'r, T>, known: &F) -> (bool, Rest<'r, T>)
    requires callable { F.IsAlwaysCallable known.now }
    ensures nodes { result.1.nodes.now ≡ rest.entry.nodes.now }
    ensures value { IsValue (F.post known.now) (nodes.Name ∷ rest.entry.nodes.now) rest.entry.names.now
        result.0 result.1.nodes.now result.1.names.now }
{
    match rest.names.split_first() {
        Some((element, names)) => {
            let holds = known(*element);
            let nodes = rest.nodes;
            (holds, Rest { nodes, names })
        }
        None => (false, rest),
    }
}

/// What stands behind the next node, where that is a name's.
fn behind_name<'r, T: Copy>(rest: Rest<'r, T>) -> Option<Rest<'r, T>>
    ensures { IfSome result (λ behind. (rest.entry.nodes.now ≡ nodes.Name ∷ behind.nodes.now)
        × (behind.names.now ≡ rest.entry.names.now)) }
{
    match rest.nodes.split_first() {
        Some((SetNode::Name, nodes)) => Some(Rest {
            nodes,
            names: rest.names,
        }),
        _ => None,
    }
}

/// Whether the next expression holds something, by what known answers of its names, and what stands behind it. Most are one
/// name, which takes no further call.
#[cycle(value)]
pub(crate) fn next_value<'r, T: Copy, F: Fn(T) -> bool>(
    rest: Rest<'r, T>,
    known: &F,
) -> (bool, Rest<'r, T>)
    requires callable { F.IsAlwaysCallable known.now }
    ensures shorter { length result.1.nodes.now ≤ length rest.entry.nodes.now }
    ensures value { IsValue (F.post known.now) rest.entry.nodes.now rest.entry.names.now
        result.0 result.1.nodes.now result.1.names.now }
{
    match behind_name(rest) {
        Some(behind) => name_value(behind, known),
        None => value(rest, known),
    }
}

/// The same of any expression. A list may be of any length, so a loop goes over its elements: the calls are as deep as the
/// expression is nested.
#[cycle(value)]
fn value<'r, T: Copy, F: Fn(T) -> bool>(rest: Rest<'r, T>, known: &F) -> (bool, Rest<'r, T>)
    requires callable { F.IsAlwaysCallable known.now }
    ensures shorter { length result.1.nodes.now ≤ length rest.entry.nodes.now }
    ensures value { IsValue (F.post known.now) rest.entry.nodes.now rest.entry.names.now
        result.0 result.1.nodes.now result.1.names.now }
{
    let mut holds = false;
    let mut left = rest;
    while let Some(behind) = behind_element(left) {
        let (element, more) = next_value(behind, known);
        holds = holds | element;
        left = more;
    }
    match left.nodes.split_first() {
        Some((node, nodes)) => {
            let names = left.names;
            let (last, more) = operation(node, Rest { nodes, names }, known);
            (holds | last, more)
        }
        None => (holds, left),
    }
}

/// What a node other than a list's comes to, with the operands that stand behind it.
#[cycle(value)]
fn operation<'r, T: Copy, F: Fn(T) -> bool>(
    node: &SetNode,
    rest: Rest<'r, T>,
    known: &F,
) -> (bool, Rest<'r, T>)
    requires single { is_element node.now ≡ false }
    requires callable { F.IsAlwaysCallable known.now }
    ensures shorter { length result.1.nodes.now ≤ length rest.entry.nodes.now }
    ensures value { IsValue (F.post known.now) (node.now ∷ rest.entry.nodes.now) rest.entry.names.now
        result.0 result.1.nodes.now result.1.names.now }
{
    match node {
        SetNode::All => (true, rest),
        SetNode::Name => name_value(rest, known),
        SetNode::Not => {
            let (x, more) = next_value(rest, known);
            (!x, more)
        }
        SetNode::And => {
            let (x, y, more) = two_values(rest, known);
            (x & y, more)
        }
        SetNode::Or => {
            let (x, y, more) = two_values(rest, known);
            (x | y, more)
        }
        SetNode::Xor => {
            let (x, y, more) = two_values(rest, known);
            (x ^ y, more)
        }
        SetNode::Nothing => (false, rest),
        SetNode::Element => (false, rest),
    }
}

/// What the next two expressions come to.
#[cycle(value)]
fn two_values<'r, T: Copy, F: Fn(T) -> bool>(
    rest: Rest<'r, T>,
    known: &F,
) -> (bool, bool, Rest<'r, T>)
    requires callable { F.IsAlwaysCallable known.now }
    ensures shorter { length result.2.nodes.now ≤ length rest.entry.nodes.now }
    ensures values { AreValues (F.post known.now) rest.entry.nodes.now rest.entry.names.now
        result.0 result.1 result.2.nodes.now result.2.names.now }
{
    let (x, behind) = next_value(rest, known);
    let (y, more) = next_value(behind, known);
    (x, y, more)
}
