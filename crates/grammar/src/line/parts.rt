ghost use Rattle.std.specs.Prelude.{◌≡◌};
ghost use Rattle.formula.specs.Formulas.{formula_tree};
ghost use Rattle.grammar.specs.Readings.{said};

use crate::line::Line;
use crate::name::Named;
use formula::formula::Formula;

impl Line {
    /// The formula, over the numbers of the names.
    pub fn formula(&self) -> &Formula
        ensures { formula_tree result.now ≡ (said self.now).tree }
    {
        &self.formula
    }

    /// The names, each with the place where it first stands.
    pub fn names(&self) -> &[Named]
        ensures { result.now ≡ (said self.now).names }
    {
        self.names.items()
    }
}
