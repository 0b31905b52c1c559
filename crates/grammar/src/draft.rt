ghost use Rattle.std.specs.Prelude.{ℕ, ◌*◌, ◌≤◌, length};
ghost use Rattle.formula.specs.Held.{held};

use crate::line::MAX_NAMES;
use crate::name::Named;
use formula::bounded::Bounded;
use formula::node::{MAX_NODES, Node, Pair};

pub mod building;

/// The nodes and the names of a rule, as far as it has been read: each pair brings at most two names.
#[derive(Drop)]
pub struct Draft {
    pub(crate) nodes: Bounded<Node<Pair<usize>>, MAX_NODES>,
    pub(crate) names: Bounded<Named, MAX_NAMES>,
    ghost two: { length (held names) ≤ 2 * length (held nodes) },
}
