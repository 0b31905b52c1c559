ghost use Rattle.std.specs.Prelude.{◌≡◌, ℕ, suc, ◌*◌, true, length};
ghost use Rattle.formula.specs.Evaluation.{parts_first};
ghost use Rattle.formula.specs.LiteralTable.{all_plain};
ghost use Rattle.formula.specs.NormalForms.{normal_nodes, normal_tree};
ghost use Rattle.formula.specs.NormalLaws.{InNormalForm};
ghost use Rattle.formula.specs.TableLaws.{OneTree};
ghost use Rattle.formula.specs.Words.{words};

use crate::literal::Literal;
use crate::node::Node;
use crate::normal::NormalForm;
use crate::table::Table;

impl NormalForm {
    /// Its table, lent.
    pub fn table(&self) -> Table<'_, Literal>
        ensures { result.nodes.now ≡ normal_nodes self.now }
    {
        Table {
            nodes: self.nodes(),
        }
    }

    /// The nodes, each after its parts, and all but the last a part of exactly one other.
    pub fn nodes(&self) -> &[Node<Literal>]
        ensures items { result.now ≡ normal_nodes self.now }
        ensures tree { OneTree result.now }
        ensures first { parts_first 0 result.now ≡ true }
        ensures count { length result.now ≡ suc (2 * words (normal_tree self.now)) }
        ensures plain { all_plain result.now ≡ true }
        ensures form { InNormalForm (normal_tree self.now) }
    {
        self.nodes.items()
    }
}
