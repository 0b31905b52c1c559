ghost use Rattle.std.specs.Prelude.{◌≡◌, true};
ghost use Rattle.formula.specs.Evaluation.{parts_first};

use crate::node::Node;

/// A table that is lent: nodes in which parts stand before the whole.
#[derive(Drop)]
pub struct Table<'a, L> {
    pub nodes: &'a [Node<L>],
    ghost first: { parts_first 0 nodes.now ≡ true },
}
