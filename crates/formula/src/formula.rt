ghost use Rattle.std.specs.Prelude.{◌≡◌, ℕ, true};
ghost use Rattle.formula.specs.Held.{held};
ghost use Rattle.formula.specs.Table.{post, tree_of, pair_place};
ghost use Rattle.formula.specs.Tree.{spans};

use crate::bounded::Bounded;
use crate::node::{MAX_NODES, Node, Pair};

pub mod table;
pub mod truth;

/// A formula over numbered atoms: a table of nodes, each after its parts, the last one the whole.
///
/// Its nodes are those of one tree, each once, and its words stand in the line as the tree has them.
#[derive(Clone, Copy)]
pub struct Formula {
    nodes: Bounded<Node<Pair<usize>>, MAX_NODES>,
    ghost whole: { post 0 (tree_of (held nodes)) ≡ held nodes },
    ghost in_order: { spans pair_place 0 512 (tree_of (held nodes)) ≡ true },
}
