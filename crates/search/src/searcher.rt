ghost use Rattle.std.specs.Prelude.{◌≡◌, ℕ, ◌<◌, ◌≤◌, ◌⊎◌, List, ◌≢◌};
ghost use Rattle.search.specs.Limits.{age_limit, capped};
ghost use Rattle.search.specs.Searching.{View, Begun, Moved, told};
ghost use Rattle.search.specs.declared.status.Status.TheVariants.{Working};

use crate::status::Status;

// Looks for an assignment that meets every clause, step by step.
pub trait Searcher {
    // What the searcher holds, seen from outside.
    ghost view: { Self → View };

    // The opening reserve, over so many variables.
    ghost stated: { ℕ → ℕ };

    // What beginning does: the searcher before, how many variables, the searcher after.
    ghost begins: { Self → ℕ → Self → Type 0 };

    // What one step does: the searcher before, the codes handed, the searcher after.
    ghost steps: { Self → List ℕ → Self → Type 0 };

    // Opens all assignments to this many variables.
    fn begin(&mut self, variables: usize)
        ensures begun { Begun (capped variables) (stated (capped variables)) (view self.new) }
        ensures begins { begins self.old variables self.new };

    // One step over clauses of three codes each.
    fn step(&mut self, codes: &[u16])
        ensures moves { (view self.old).sound → (view self.old).status ≡ Working → (view self.old).age < age_limit → Moved codes.now (view self.old) (view self.new) }
        ensures rests { ((view self.old).status ≢ Working) ⊎ (age_limit ≤ (view self.old).age) → self.new ≡ self.old }
        ensures steps { steps self.old codes.now self.new };

    fn status(&self) -> Status
        ensures { result ≡ (view self.now).status };

    fn age(&self) -> u32
        ensures { result ≡ (view self.now).age };

    // The shown value of a variable, counted from 1: there when found, and within the variables searched.
    fn value(&self, variable: usize) -> Option<bool>
        ensures { result ≡ told (view self.now) variable };

    // At reserve 0 it is not working.
    ghost lively: { (s : Self) → (view s).sound → (view s).status ≡ Working → 0 < (view s).reserve };
}
