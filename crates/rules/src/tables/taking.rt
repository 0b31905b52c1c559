ghost use Rattle.std.specs.Prelude.{◌≡◌, ℕ, Err, OnOk};
ghost use Rattle.formula.specs.Formulas.{formula_tree};
ghost use Rattle.formula.specs.Table.{blank};
ghost use Rattle.grammar.specs.Readings.{said};
ghost use Rattle.rules.specs.Entries.{no_entries};
ghost use Rattle.rules.specs.Outcomes.{settled};
ghost use Rattle.rules.specs.Taking.{taken, last_number};
ghost use Rattle.rules.specs.TakingLaws.{Took};
ghost use Rattle.rules.specs.Views.{entered};

use crate::fault::TakeFault;
use crate::lots::Lots;
use crate::numbering::LineLots;
use crate::rule::Rule;
use crate::tables::{MAX_RULES, Tables};
use formula::bounded::Bounded;
use formula::formula::Formula;
use formula::node::{Node, Pair};
use grammar::line::Line;

// What stands where no rule is.
fn unwritten() -> Rule
    ensures { formula_tree result.formula ≡ blank }
{
    let mut table = Bounded::new(Node::Not { place: 0, part: 0 });
    table.push(Node::Leaf(Pair {
        place: 0,
        first: 0,
        second: 0,
    }));
    Rule::new(Formula::new(table))
}

impl Tables {
    /// No lots and no rules.
    pub fn new() -> Self
        ensures { entered result ≡ no_entries }
    {
        Tables {
            lots: Lots::new(),
            rules: Bounded::new(unwritten()),
        }
    }

    /// Takes a line: its names become lots where they are none yet, and its rule is in force. Answers
    /// the rule's number. A refused line leaves everything as it was.
    pub fn take(&mut self, line: &Line) -> Result<usize, TakeFault>
        ensures answer { result ≡ last_number (taken (entered self.old) (said line.now)) }
        ensures after { entered self.new ≡ settled (entered self.old) (taken (entered self.old) (said line.now)) }
        ensures took { OnOk result (Took (entered self.old) (entered self.new) (said line.now)) }
        ensures refused { (f : TakeFault) → result ≡ Err f → self.new ≡ self.old }
    {
        if self.rules() >= MAX_RULES {
            return Err(TakeFault::RulesFull);
        }
        let names = line.names();
        let lots = self.lots.with(names)?;
        let line_lots = LineLots { names, lots: &lots };
        let formula = line_lots.over_lots(line.formula());
        let at = self.rules.push(Rule::new(formula));
        self.lots = lots;
        Ok(at + 1)
    }
}
