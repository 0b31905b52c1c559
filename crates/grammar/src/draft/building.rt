ghost use Rattle.std.specs.Prelude.{◌≡◌, ℕ, ◌<◌, position, List, ◌∷◌, ◌++◌, length};
ghost use Rattle.formula.specs.Held.{held};
ghost use Rattle.formula.specs.declared.node.Node.TheVariants.{Leaf};
ghost use Rattle.grammar.specs.Drafts.{nodes_in, names_in};
ghost use Rattle.grammar.specs.Names.{find, is_named, enlist, pair_in};

use crate::draft::Draft;
use crate::line::MAX_NAMES;
use crate::name::{NAME_BYTES, Name, Named};
use formula::bounded::Bounded;
use formula::node::{Node, Pair};

/// The number of a name in a list, if it stands there: the first place where it does.
fn number_in(names: &[Named], name: Name) -> Option<usize>
    ensures { result ≡ position (is_named name) names.now }
{
    names.iter().position(|known| known.name.is(&name))
}

/// The number of a name, which is added where it does not stand yet.
#[tactic(auto, using(crate::proofs::Numbering::find_none))]
fn number(names: &mut Bounded<Named, MAX_NAMES>, named: Named) -> usize
    requires room { length (held names.old) < 64 }
    ensures number { result ≡ find named.name (held names.old) }
    ensures names { held names.new ≡ enlist (held names.old) named }
{
    match number_in(names.items(), named.name) {
        Some(at) => at,
        None => names.push(named),
    }
}

impl Draft {
    /// No nodes and no names.
    pub fn new() -> Self
        ensures nodes { nodes_in result ≡ List.[] }
        ensures names { names_in result ≡ List.[] }
    {
        let nobody = Named {
            place: 0,
            name: Name::new([0; NAME_BYTES]),
        };
        Draft {
            nodes: Bounded::new(Node::Not { place: 0, part: 0 }),
            names: Bounded::new(nobody),
        }
    }

    /// One more node at the end, and its index.
    pub fn push(&mut self, node: Node<Pair<usize>>) -> usize
        requires room { length (nodes_in self.old) < 32 }
        ensures index { result ≡ length (nodes_in self.old) }
        ensures nodes { nodes_in self.new ≡ nodes_in self.old ++ (node ∷ List.[]) }
        ensures names { names_in self.new ≡ names_in self.old }
    {
        self.nodes.push(node)
    }

    /// A pair at the end, by the numbers of its names, and its index.
    pub fn pair(&mut self, place: usize, first: Named, second: Named) -> usize
        requires room { length (nodes_in self.old) < 32 }
        ensures index { result ≡ length (nodes_in self.old) }
        ensures names { names_in self.new ≡ enlist (enlist (names_in self.old) first) second }
        ensures nodes { nodes_in self.new ≡ nodes_in self.old ++ (Leaf (pair_in (names_in self.new) (record { place = place; first = first; second = second })) ∷ List.[]) }
    {
        let one = number(&mut self.names, first);
        let other = number(&mut self.names, second);
        self.nodes.push(Node::Leaf(Pair {
            place,
            first: one,
            second: other,
        }))
    }
}
