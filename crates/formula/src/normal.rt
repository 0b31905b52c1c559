ghost use Rattle.std.specs.Prelude.{◌≡◌, ℕ, true};
ghost use Rattle.formula.specs.Held.{held};
ghost use Rattle.formula.specs.LiteralTable.{literal_tree_of};
ghost use Rattle.formula.specs.Normal.{is_normal, literal_place};
ghost use Rattle.formula.specs.Table.{post};
ghost use Rattle.formula.specs.Tree.{spans};

use crate::bounded::Bounded;
use crate::literal::Literal;
use crate::node::{MAX_NODES, Node};

mod making;
pub mod table;

/// A formula in negation normal form: a table of literals, `and` and `or`, each after its parts, the
/// last one the whole.
///
/// Its nodes are those of one tree, each once, and its words stand in the line as the tree has them.
/// It is a type of its own beside `Formula`: one type over the leaf would have to name in its facts, for
/// each leaf, the tree that stands for a missing part and where the leaf's word stands.
#[derive(Clone, Copy)]
pub struct NormalForm {
    nodes: Bounded<Node<Literal>, MAX_NODES>,
    ghost whole: { post 0 (literal_tree_of (held nodes)) ≡ held nodes },
    ghost normal: { is_normal (literal_tree_of (held nodes)) ≡ true },
    ghost in_order: { spans literal_place 0 512 (literal_tree_of (held nodes)) ≡ true },
}
