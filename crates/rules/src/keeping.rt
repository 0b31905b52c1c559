ghost use Rattle.std.specs.Prelude.{◌≡◌};
ghost use Rattle.formula.specs.Formulas.{formula_tree};
ghost use Rattle.rules.specs.Keeping.{kept_in, by_lot};

use formula::formula::Formula;

/// The firing of a lot, by its number from 1. A number that is no lot's gets one too, so that nothing is asked
/// of the list: no rule has such a number.
fn firing(firings: &[usize], lot: usize) -> usize
    ensures { result ≡ by_lot firings.now lot }
{
    let at = lot.saturating_sub(1);
    firings.get(at).copied().unwrap_or(0)
}

/// Whether a numbering, given by the firing of each lot, keeps a formula.
pub fn keeps(formula: &Formula, firings: &[usize]) -> bool
    ensures { result ≡ kept_in (by_lot firings.now) (formula_tree formula.now) }
{
    formula.truth(|pair| firing(firings, pair.first) == firing(firings, pair.second))
}
