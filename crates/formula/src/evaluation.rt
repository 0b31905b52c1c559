ghost use Rattle.std.specs.Prelude.{◌≡◌, ℕ, ◌≤◌, true, ◌++◌, length, drop, slice_index_or, is_ok, OnOk};
ghost use Rattle.formula.specs.Evaluation.{all_below, parts_first, ready, readiness, evaluated, node_truths, weighed};
ghost use Rattle.formula.specs.Parts.{parts};
ghost use Rattle.formula.specs.TruthLaws.{TruthsOfTrees};

use crate::node::Node;
use crate::scale::Scale;
use crate::table::Table;

// Whether the parts of a node stand before `at`.
fn is_after_parts<L: Copy>(node: Node<L>, at: usize) -> bool
    ensures { result ≡ all_below at (parts node) }
{
    match node {
        Node::Leaf(_) => true,
        Node::Not { part, .. } => part < at,
        Node::And { left, right, .. }
        | Node::Or { left, right, .. }
        | Node::Then { left, right, .. } => left < at && right < at,
    }
}

// Whether parts stand before the whole, all through a table.
fn has_parts_first<L: Copy>(nodes: &[Node<L>]) -> bool
    ensures { result ≡ parts_first 0 nodes.now }
{
    nodes
        .iter()
        .enumerate()
        .all(|(i, node)| is_after_parts(*node, i))
}

// The truth of one node, from that of its leaf and those of the nodes before it.
fn weigh<S: Scale + Copy, L: Copy>(node: Node<L>, leaf: S, truths: &[S]) -> S
    requires { all_below (length truths.now) (parts node) ≡ true }
    ensures { result ≡ weighed S.ops leaf (λ k. slice_index_or truths.now k S.blank) node }
{
    match node {
        Node::Leaf(_) => leaf,
        Node::Not { part, .. } => truths[part].opposite(),
        Node::And { left, right, .. } => truths[left].both(truths[right]),
        Node::Or { left, right, .. } => truths[left].either(truths[right]),
        Node::Then { left, right, .. } => truths[left].opposite().either(truths[right]),
    }
}

// Writes the truth of each node, from the first on.
fn fill<S: Scale + Copy, L: Copy>(table: &Table<L>, leaves: &[S], truths: &mut [S])
    requires known { length table.now.nodes.now ≤ length leaves.now }
    requires room { length table.now.nodes.now ≤ length truths.old }
    ensures { truths.new ≡ node_truths S.ops S.blank table.now.nodes.now leaves.now ++ drop (length table.now.nodes.now) truths.old }
{
    let nodes = table.nodes;
    for i in 0..nodes.len() {
        truths[i] = weigh(nodes[i], leaves[i], truths);
    }
}

/// Why the nodes of a table cannot be worked out.
#[derive(Clone, Copy, Debug)]
pub enum NotReady {
    /// There are fewer leaf truths than nodes.
    TooFewLeaves,
    /// There is room for fewer truths than nodes.
    TooLittleRoom,
    /// A part does not stand before the whole.
    PartNotBefore,
}

// Whether there is a leaf truth and room for every node, and parts stand before the whole.
fn check<L: Copy>(nodes: &[Node<L>], leaves: usize, room: usize) -> Result<(), NotReady>
    ensures { result ≡ readiness nodes.now leaves room }
{
    if leaves < nodes.len() {
        return Err(NotReady::TooFewLeaves);
    }
    if room < nodes.len() {
        return Err(NotReady::TooLittleRoom);
    }
    if !has_parts_first(nodes) {
        return Err(NotReady::PartNotBefore);
    }
    Ok(())
}

/// Works out the truth of every node of a table, in any scale: `leaves[i]` is the truth of the leaf
/// at node `i`, and `truths[i]` becomes that of node `i`. What `leaves` holds at other nodes does not
/// matter. If a slice is shorter than the table, or a part does not stand before the whole, nothing
/// is changed.
pub fn evaluate<S: Scale + Copy, L: Copy>(
    nodes: &[Node<L>],
    leaves: &[S],
    truths: &mut [S],
) -> Result<(), NotReady>
    ensures answer { is_ok result ≡ ready nodes.now (length leaves.now) (length truths.old) }
    ensures why { result ≡ readiness nodes.now (length leaves.now) (length truths.old) }
    ensures after { truths.new ≡ evaluated S.ops S.blank nodes.now leaves.now truths.old }
    ensures trees { OnOk result (TruthsOfTrees S.ops S.blank nodes.now leaves.now truths.new) }
{
    check(nodes, leaves.len(), truths.len())?;
    fill(&Table { nodes }, leaves, truths);
    Ok(())
}
