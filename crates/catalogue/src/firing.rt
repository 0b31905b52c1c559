ghost use Rattle.std.specs.Prelude.{◌≡◌};
ghost use Rattle.formula.specs.Formulas.{formula_tree};
ghost use Rattle.formula.specs.Scales.{two};
ghost use Rattle.formula.specs.Truth.{truth};
ghost use Rattle.catalogue.specs.Firing.{fires};

use formula::formula::Formula;

/// The truth of a rule when every lot fires alone, or when all fire together.
pub fn firing_truth(formula: &Formula, all: bool) -> bool
    ensures { result ≡ truth two (fires all) (formula_tree formula.now) }
{
    formula.truth(|pair| all || pair.first == pair.second)
}
