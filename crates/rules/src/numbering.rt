ghost use Rattle.std.specs.Prelude.{◌≡◌, ℕ, ◌<◌, true, length};
ghost use Rattle.formula.specs.Formulas.{formula_tree};
ghost use Rattle.formula.specs.Tree.{map_pair};
ghost use Rattle.formula.specs.Within.{within, pair_below};
ghost use Rattle.formula.specs.Table.{map_node};
ghost use Rattle.rules.specs.Leaves.{leaf_passes};
ghost use Rattle.rules.specs.LotNames.{lots_in};
ghost use Rattle.rules.specs.OverLots.{AreLots, lot_of_named, tree_over_lots};

use crate::lots::Lots;
use formula::bounded::Bounded;
use formula::formula::Formula;
use formula::node::{Node, Pair};
use grammar::name::Named;

/// The names of a line, each of which is a lot.
#[derive(Clone, Copy)]
pub struct LineLots<'a> {
    pub names: &'a [Named],
    pub lots: &'a Lots,
    ghost known: { AreLots (lots_in lots.now) names.now },
}

impl LineLots<'_> {
    // The number of the lot that a name is.
    fn number(&self, at: usize) -> usize
        requires { at < length self.now.names.now }
        ensures { result ≡ lot_of_named (lots_in self.now.lots.now) self.now.names.now at }
    {
        self.lots.number_of(&self.names[at].name).unwrap()
    }

    // A node over the lots that the names are.
    fn node(&self, node: Node<Pair<usize>>) -> Node<Pair<usize>>
        requires { leaf_passes (pair_below (length self.now.names.now)) node ≡ true }
        ensures { result ≡ map_node (map_pair (lot_of_named (lots_in self.now.lots.now) self.now.names.now)) node }
    {
        match node {
            Node::Leaf(pair) => Node::Leaf(Pair {
                place: pair.place,
                first: self.number(pair.first),
                second: self.number(pair.second),
            }),
            word => word,
        }
    }

    /// A formula over the lots that the names are; its words stay where they stand.
    pub fn over_lots(&self, formula: &Formula) -> Formula
        requires { within (length self.now.names.now) (formula_tree formula.now) ≡ true }
        ensures { formula_tree result ≡ tree_over_lots (lots_in self.now.lots.now) self.now.names.now (formula_tree formula.now) }
    {
        let mut table = Bounded::new(Node::Not { place: 0, part: 0 });
        for node in formula.nodes() {
            table.push(self.node(*node));
        }
        Formula::new(table)
    }
}
