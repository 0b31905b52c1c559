ghost use Rattle.std.specs.Prelude.{◌≡◌, true};
ghost use Rattle.rules.specs.Marks.{with_mark};

use formula::formula::Formula;

/// A rule: its formula over the numbers of lots, and whether it is in force.
#[derive(Clone, Copy)]
pub struct Rule {
    formula: Formula,
    in_force: bool,
}

impl Rule {
    /// A rule in force.
    pub(crate) fn new(formula: Formula) -> Self
        ensures formula { result.formula ≡ formula }
        ensures mark { result.in_force ≡ true }
    {
        Rule {
            formula,
            in_force: true,
        }
    }

    /// The formula.
    pub fn formula(&self) -> &Formula
        ensures { result.now ≡ self.now.formula }
    {
        &self.formula
    }

    /// Whether it is in force.
    pub fn in_force(&self) -> bool
        ensures { result ≡ self.now.in_force }
    {
        self.in_force
    }

    /// Puts it in force or out of force.
    pub(crate) fn set_mark(&mut self, mark: bool)
        ensures { self.new ≡ with_mark mark self.old }
    {
        self.in_force = mark;
    }
}
