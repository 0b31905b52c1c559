ghost use Rattle.std.specs.Prelude.{◌≡◌, ◌≤◌, length, refl};
ghost use Rattle.search.specs.Held.{walker_state};
ghost use Rattle.search.specs.Limits.{capped};
ghost use Rattle.search.specs.Lively.{walker_lively};
ghost use Rattle.search.specs.Meanings.{walker_view, nodes};
ghost use Rattle.search.specs.States.{last_false, older};
ghost use Rattle.search.specs.Walking.{walker_start, prefix_of, walker_back, walker_step};

use crate::held::Held;
use crate::limits::AGE_LIMIT;
use crate::searcher::Searcher;
use crate::status::Status;
use crate::walker::Walker;
use crate::walker::prefix::Prefix;
use crate::written::Written;

impl Walker {
    // A walker that has begun over no variables.
    pub fn new() -> Walker
        ensures { walker_state result ≡ walker_start 0 }
    {
        Walker { held: Held::new() }
    }

    // How the values held stand with the clauses.
    #[tactic(auto, using(std::proofs::lemmas::Bool::Decides::nat_tests), unfolding(crate::specs::Walking::prefix_of))]
    fn prefix(&self, codes: &[u16]) -> Prefix
        ensures value { result ≡ prefix_of (walker_state self.now) codes.now }
        ensures within { length (walker_state self.now).values ≤ (walker_state self.now).variables }
    {
        match self.held.assignment().first_false(codes) {
            Some(_) => Prefix::Conflict,
            None if self.held.is_full() => Prefix::Full,
            None => Prefix::Extendable,
        }
    }

    // Drops trailing trues and turns the last false to true; where nothing remains, the search ends with none.
    fn turn_back(&mut self)
        ensures { older (walker_state self.new) ≡ walker_back (walker_state self.old) (last_false (walker_state self.old).values) }
    {
        if !self.held.turn() {
            self.held.clear();
            self.held.set_status(Status::Refuted);
        }
    }
}

impl Searcher for Walker {
    ghost view = { λ w. walker_view (walker_state w) };

    ghost stated = { nodes };

    ghost begins = { λ s variables t. walker_state t ≡ walker_start (capped variables) };

    ghost steps = { λ s codes t. walker_state t ≡ walker_step (walker_state s) codes };

    ghost lively = { λ w _ working. walker_lively (walker_state w) working };

    fn begin(&mut self, variables: usize) {
        self.held.begin(variables);
    }

    #[tactic(auto, using(std::proofs::lemmas::Bool::Decides::nat_tests), unfolding(crate::specs::Walking::prefix_of))]
    fn step(&mut self, codes: &[u16]) {
        let age = self.held.age();
        if age == AGE_LIMIT {
            return;
        }
        match (self.held.status(), self.prefix(codes)) {
            (Status::Working, Prefix::Conflict) => self.turn_back(),
            (Status::Working, Prefix::Full) => self.held.set_status(Status::Found),
            (Status::Working, Prefix::Extendable) => self.held.extend(),
            (Status::Found | Status::Refuted, _) => return,
        }
        self.held.set_age(age + 1); // the last step counts too
    }

    fn status(&self) -> Status {
        self.held.status()
    }

    fn age(&self) -> u32 {
        self.held.age()
    }

    fn value(&self, variable: usize) -> Option<bool> {
        self.held.value(variable)
    }
}

impl Written for Walker {
    ghost state = { walker_state };

    ghost start = { walker_start };

    ghost next = { walker_step };

    ghost status_shown = { λ _. refl };

    ghost age_shown = { λ _. refl };

    ghost variables_shown = { λ _. refl };

    ghost values_shown = { λ _ _. refl };

    ghost starts = { λ _ _ _ e. e };

    ghost goes_on = { λ _ _ _ e. e };

    fn values(&self) -> &[bool] {
        self.held.values()
    }
}
