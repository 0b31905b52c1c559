ghost use Rattle.std.specs.Prelude.{◌≡◌, ℕ, true};
ghost use Rattle.formula.specs.declared.node.Pair.{Pair as PairOf};
ghost use Rattle.formula.specs.Normal.{nnf, signed};
ghost use Rattle.formula.specs.Tree.{Tree};
ghost use Rattle.formula.specs.TruthLaws.{SameTruth, ThenIsOr};

use crate::node::Pair;
use crate::scale::Scale;

/// A pair as it stands (positive) or its opposite: the leaf of a normal form.
#[derive(Clone, Copy)]
pub struct Literal {
    pub positive: bool,
    pub pair: Pair<usize>,
}

impl Literal {
    /// Its truth, from that of its pair. With these truths at its leaves a normal form has the truth
    /// of its formula, in every scale.
    pub fn truth<S: Scale>(self, pair: S) -> S
        ensures value { result ≡ signed S.ops self.positive pair }
        ensures same { (t : Tree (PairOf ℕ)) → SameTruth S.ops t (nnf true t) }
        ensures implication { ThenIsOr S.ops }
    {
        if self.positive { pair } else { pair.opposite() }
    }
}
