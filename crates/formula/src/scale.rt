ghost use Rattle.std.specs.Prelude.{◌≡◌, ℕ};
ghost use Rattle.formula.specs.declared.literal.Literal.{Literal};
ghost use Rattle.formula.specs.declared.node.Pair.{Pair};
ghost use Rattle.formula.specs.Decided.{known, decided};
ghost use Rattle.formula.specs.Ops.{Ops};
ghost use Rattle.formula.specs.Scaled.{two_laws, three_laws};
ghost use Rattle.formula.specs.Scales.{two, two_blank, three, three_blank};
ghost use Rattle.formula.specs.TruthLaws.{Informed};
ghost use Rattle.formula.specs.TruthTables.{TruthTables};

/// A scale of truth: what its values come to under `and`, `or` and `not`.
pub trait Scale: Sized {
    ghost ops: { Ops Self };

    // What a list is read as where it has no element; no promise depends on it.
    ghost blank: { Self };

    fn both(self, other: Self) -> Self
        ensures { result ≡ ops.both self other };

    fn either(self, other: Self) -> Self
        ensures { result ≡ ops.either self other };

    fn opposite(self) -> Self
        ensures { result ≡ ops.opposite self };

    ghost twice: { (x : Self) → ops.opposite (ops.opposite x) ≡ x };

    ghost dual: { (x y : Self) → ops.opposite (ops.both x y) ≡ ops.either (ops.opposite x) (ops.opposite y) };
}

/// A truth that may still be open. It is no `Option<bool>`, so that a value that is open is not taken
/// for one that is missing; `decided` gives the option.
#[derive(Clone, Copy)]
pub enum Three {
    Yes,
    No,
    Open,
}

impl Three {
    /// The truth, if it is decided: then it is the truth however the open leaves are decided.
    #[tactic(auto, using(crate::proofs::Information::informed))]
    pub fn decided(self) -> Option<bool>
        ensures value { result ≡ decided self }
        ensures tables { TruthTables }
        ensures formulas { Informed (Pair ℕ) }
        ensures forms { Informed Literal }
        ensures nodes { Informed ℕ }
    {
        match self {
            Three::Yes => Some(true),
            Three::No => Some(false),
            Three::Open => None,
        }
    }
}

impl From<bool> for Three {
    ghost from_gives = { λ truth three. three ≡ known truth };

    fn from(truth: bool) -> Three {
        if truth { Three::Yes } else { Three::No }
    }
}

impl Scale for bool {
    ghost ops = { two };

    ghost blank = { two_blank };

    ghost twice = { two_laws.twice };

    ghost dual = { two_laws.dual };

    fn both(self, other: bool) -> bool {
        self & other
    }

    fn either(self, other: bool) -> bool {
        self | other
    }

    fn opposite(self) -> bool {
        !self
    }
}

impl Scale for Three {
    ghost ops = { three };

    ghost blank = { three_blank };

    ghost twice = { three_laws.twice };

    ghost dual = { three_laws.dual };

    fn both(self, other: Three) -> Three {
        match (self, other) {
            (Three::No, _) | (_, Three::No) => Three::No,
            (Three::Yes, Three::Yes) => Three::Yes,
            _ => Three::Open,
        }
    }

    fn either(self, other: Three) -> Three {
        self.opposite().both(other.opposite()).opposite()
    }

    fn opposite(self) -> Three {
        match self {
            Three::Yes => Three::No,
            Three::No => Three::Yes,
            Three::Open => Three::Open,
        }
    }
}
