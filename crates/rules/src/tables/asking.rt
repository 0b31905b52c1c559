ghost use Rattle.std.specs.Prelude.{◌≡◌, ℕ, ◌↔◌, length, IfSome, Some, None, MatchOption};
ghost use Rattle.formula.specs.declared.node.Pair.{Pair};
ghost use Rattle.formula.specs.Tree.{Tree};
ghost use Rattle.formula.specs.Formulas.{formula_tree};
ghost use Rattle.rules.specs.Asking.{mark_at, tree_at, keep_answer};
ghost use Rattle.rules.specs.Entered.{entry_of};
ghost use Rattle.rules.specs.Items.{item};
ghost use Rattle.rules.specs.Keeping.{Numbering, Agree, by_lot, kept_in};
ghost use Rattle.rules.specs.LotLaws.{OverLots};
ghost use Rattle.rules.specs.Numbers.{lot_found};
ghost use Rattle.rules.specs.Views.{entered};

use crate::keeping;
use crate::rule::Rule;
use crate::tables::Tables;
use formula::formula::Formula;
use grammar::name::Name;

impl Tables {
    /// How many lots there are.
    pub fn lots(&self) -> usize
        ensures { result ≡ length (entered self.now).lots }
    {
        self.lots.names().len()
    }

    /// The name of a lot, by its number from 1.
    pub fn lot(&self, number: usize) -> Option<Name>
        ensures { result ≡ item number (entered self.now).lots }
    {
        let at = number.checked_sub(1)?;
        self.lots.names().get(at).copied()
    }

    /// The number of the lot that has this name, however it was spelt in a line.
    #[tactic(auto, using(crate::proofs::ApartLots::found_only))]
    pub fn lot_named(&self, name: &Name) -> Option<usize>
        ensures value { result ≡ lot_found name.now (entered self.now).lots }
        ensures only { (k : ℕ) → (result ≡ Some k) ↔ (item k (entered self.now).lots ≡ Some name.now) }
    {
        self.lots.number_of(name)
    }

    /// How many rules were given.
    pub fn rules(&self) -> usize
        ensures { result ≡ length (entered self.now).rules }
    {
        self.rules.len()
    }

    /// A rule, by its number from 1.
    pub fn rule(&self, number: usize) -> Option<&Rule>
        ensures { MatchOption result (item number (entered self.now).rules ≡ None) (λ x. item number (entered self.now).rules ≡ Some (entry_of x.now)) }
    {
        let row = number.checked_sub(1)?;
        self.rules.items().get(row)
    }

    /// Whether a rule is in force, by its number from 1.
    pub fn in_force(&self, number: usize) -> Option<bool>
        ensures { result ≡ mark_at number (entered self.now).rules }
    {
        let rule = self.rule(number)?;
        Some(rule.in_force())
    }

    /// The formula of a rule, by its number from 1.
    #[tactic(auto, using(crate::proofs::AmongLots::over_in_words))]
    pub fn formula(&self, number: usize) -> Option<&Formula>
        ensures tree { MatchOption result (tree_at number (entered self.now).rules ≡ None) (λ f. tree_at number (entered self.now).rules ≡ Some (formula_tree f.now)) }
        ensures over { (k : ℕ) (t : Tree (Pair ℕ)) → tree_at k (entered self.now).rules ≡ Some t → OverLots (length (entered self.now).lots) t }
    {
        let rule = self.rule(number)?;
        Some(rule.formula())
    }

    /// Whether a numbering, given by the firing of each lot from lot 1 on, keeps a rule. None if the
    /// rule was never given, or if there are fewer firings than lots.
    #[tactic(auto, using(crate::proofs::KeptRules::kept_same))]
    pub fn keeps(&self, number: usize, firings: &[usize]) -> Option<bool>
        ensures value { result ≡ keep_answer (entered self.now) number firings.now }
        ensures lots { IfSome result (λ b. (f : Numbering) (t : Tree (Pair ℕ)) → tree_at number (entered self.now).rules ≡ Some t → Agree (length (entered self.now).lots) f (by_lot firings.now) → b ≡ kept_in f t) }
    {
        if firings.len() < self.lots() {
            return None;
        }
        let formula = self.formula(number)?;
        Some(keeping::keeps(formula, firings))
    }
}
