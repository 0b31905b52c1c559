ghost use Rattle.std.specs.Prelude.{◌≡◌, ℕ, ◌≤◌, true, length};
ghost use Rattle.formula.specs.Held.{held};
ghost use Rattle.formula.specs.Evaluation.{parts_first};
ghost use Rattle.formula.specs.Formulas.{nodes_of, formula_tree};
ghost use Rattle.formula.specs.Table.{post, tree_of, pair_place};
ghost use Rattle.formula.specs.TableLaws.{FewWords, OneTree};
ghost use Rattle.formula.specs.Tree.{spans};

use crate::bounded::Bounded;
use crate::formula::Formula;
use crate::node::{MAX_NODES, Node, Pair};
use crate::table::Table;

impl Formula {
    /// The formula whose table this is.
    pub fn new(table: Bounded<Node<Pair<usize>>, MAX_NODES>) -> Self
        requires whole { post 0 (tree_of (held table)) ≡ held table }
        requires in_order { spans pair_place 0 512 (tree_of (held table)) ≡ true }
        ensures { nodes_of result ≡ held table }
    {
        Formula { nodes: table }
    }

    /// How many nodes there are: at least one.
    pub fn len(&self) -> usize
        ensures count { result ≡ length (nodes_of self.now) }
        ensures bounds { (1 ≤ result) × (result ≤ 32) }
        ensures words { FewWords (formula_tree self.now) }
    {
        self.nodes().len()
    }

    /// Its table, lent.
    pub fn table(&self) -> Table<'_, Pair<usize>>
        ensures { result.nodes.now ≡ nodes_of self.now }
    {
        Table {
            nodes: self.nodes(),
        }
    }

    /// The nodes, each after its parts, and all but the last a part of exactly one other.
    pub fn nodes(&self) -> &[Node<Pair<usize>>]
        ensures items { result.now ≡ nodes_of self.now }
        ensures tree { OneTree result.now }
        ensures first { parts_first 0 result.now ≡ true }
        ensures places { spans pair_place 0 512 (formula_tree self.now) ≡ true }
    {
        self.nodes.items()
    }
}
