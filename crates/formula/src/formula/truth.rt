ghost use Rattle.std.specs.Prelude.{◌≡◌, ℕ, ◌≤◌, Bool, false, length};
ghost use Rattle.formula.specs.declared.node.Pair.{Pair as PairOf};
ghost use Rattle.formula.specs.Formulas.{formula_tree};
ghost use Rattle.formula.specs.Scales.{two};
ghost use Rattle.formula.specs.Tests.{Computes};
ghost use Rattle.formula.specs.Truth.{truth};
ghost use Rattle.formula.specs.TruthLaws.{LeafTruths};

use crate::evaluation::evaluate;
use crate::formula::Formula;
use crate::node::{MAX_NODES, Node, Pair};

// The truth of each pair of a table, at the pair's own index.
fn leaf_truths<F: Fn(Pair<usize>) -> bool>(
    nodes: &[Node<Pair<usize>>],
    is_true: F,
) -> [bool; MAX_NODES]
    requires test { F.IsAlwaysCallable is_true }
    requires few { length nodes.now ≤ 32 }
    ensures wide { length result ≡ 32 }
    ensures truths { (v : PairOf ℕ → Bool) → Computes (F.post is_true) v → LeafTruths v false nodes.now result }
{
    let mut truths = [false; MAX_NODES];
    for (i, node) in nodes.iter().enumerate() {
        if let Node::Leaf(pair) = node {
            truths[i] = is_true(*pair);
        }
    }
    truths
}

impl Formula {
    /// Its truth by yes and no, where a test says which pairs are true.
    pub fn truth<F: Fn(Pair<usize>) -> bool>(&self, is_true: F) -> bool
        requires test { F.IsAlwaysCallable is_true }
        ensures { (v : PairOf ℕ → Bool) → Computes (F.post is_true) v → result ≡ truth two v (formula_tree self.now) }
    {
        let last = self.len() - 1;
        let nodes = self.nodes();
        let leaves = leaf_truths(nodes, is_true);
        let mut truths = [false; MAX_NODES];
        // It answers Ok: a formula's parts stand before the whole, and there is a leaf truth and room for each node.
        let _ = evaluate(nodes, &leaves, &mut truths);
        truths[last]
    }
}
