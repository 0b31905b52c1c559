ghost use Rattle.std.specs.Prelude.{◌≡◌, ℕ, ◌+◌, ◌<◌, ◌≤◌, true, List, ◌∷◌, ◌++◌, length};
ghost use Rattle.formula.specs.Formulas.{formula_tree};
ghost use Rattle.formula.specs.Held.{held};
ghost use Rattle.formula.specs.LiteralTable.{joined_node};
ghost use Rattle.formula.specs.Normal.{nnf};
ghost use Rattle.formula.specs.NormalForms.{normal_tree};
ghost use Rattle.formula.specs.NormalLaws.{Kept};
ghost use Rattle.formula.specs.Table.{top, post, node_tree};
ghost use Rattle.formula.specs.Tree.{size};

use crate::bounded::Bounded;
use crate::formula::Formula;
use crate::literal::Literal;
use crate::node::{MAX_NODES, Node, Pair};
use crate::normal::NormalForm;
use crate::table::Table;

// The node over two parts: `and` for a positive sign, `or` for a negative one.
fn join(positive: bool, place: usize, left: usize, right: usize) -> Node<Literal>
    ensures { result ≡ joined_node positive place left right }
{
    if positive {
        Node::And { place, left, right }
    } else {
        Node::Or { place, left, right }
    }
}

// Appends the normal form of the tree of a node, or of its opposite where the sign is negative, and
// says where its top node stands.
fn append(
    table: &Table<Pair<usize>>,
    at: usize,
    positive: bool,
    out: &mut Bounded<Node<Literal>, MAX_NODES>,
) -> usize
    requires within { at < length table.now.nodes.now }
    requires room { length (held out.old) + size (nnf positive (node_tree table.now.nodes.now at)) ≤ 32 }
    ensures top { result ≡ top (length (held out.old)) (nnf positive (node_tree table.now.nodes.now at)) }
    ensures more { held out.new ≡ held out.old ++ post (length (held out.old)) (nnf positive (node_tree table.now.nodes.now at)) }
{
    match table.nodes[at] {
        Node::Leaf(pair) => out.push(Node::Leaf(Literal { positive, pair })),
        Node::Not { part, .. } => append(table, part, !positive, out),
        Node::And { place, left, right } => {
            let x = append(table, left, positive, out);
            let y = append(table, right, positive, out);
            out.push(join(positive, place, x, y))
        }
        Node::Or { place, left, right } => {
            let x = append(table, left, positive, out);
            let y = append(table, right, positive, out);
            out.push(join(!positive, place, x, y))
        }
        Node::Then { place, left, right } => {
            let x = append(table, left, !positive, out);
            let y = append(table, right, positive, out);
            out.push(join(!positive, place, x, y))
        }
    }
}

impl Formula {
    /// Its negation normal form: the same truth in every scale, with `not` on pairs only.
    pub fn normal(&self) -> NormalForm
        ensures tree { normal_tree result ≡ nnf true (formula_tree self.now) }
        ensures kept { Kept (formula_tree self.now) (normal_tree result) }
    {
        let nowhere = Pair {
            place: 0,
            first: 0,
            second: 0,
        };
        let mut table = Bounded::new(Node::Leaf(Literal {
            positive: false,
            pair: nowhere,
        }));
        append(&self.table(), self.len() - 1, true, &mut table);
        NormalForm { nodes: table }
    }
}
