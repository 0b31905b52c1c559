ghost use Rattle.std.specs.Prelude.{◌≡◌, ℕ, true, length};
ghost use Rattle.formula.specs.Formulas.{formula_tree};
ghost use Rattle.formula.specs.Held.{held};
ghost use Rattle.formula.specs.Within.{within};

use crate::name::Named;
use formula::bounded::Bounded;
use formula::formula::Formula;
use formula::node::MAX_NODES;

pub mod parts;

/// A line has at most so many names: each pair brings at most two.
pub const MAX_NAMES: usize = 2 * MAX_NODES;

/// What a line says: a formula over the line's names, which are numbered from 0 as they first stand.
#[derive(Drop)]
pub struct Line {
    pub(crate) formula: Formula,
    pub(crate) names: Bounded<Named, MAX_NAMES>,
    ghost named: { within (length (held names)) (formula_tree formula) ≡ true },
}
