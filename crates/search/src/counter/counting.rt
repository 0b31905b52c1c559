ghost use Rattle.std.specs.Prelude.{◌≡◌, ◌^◌, refl};
ghost use Rattle.search.specs.Counting.{counter_start, counter_next, counter_step};
ghost use Rattle.search.specs.Held.{counter_state};
ghost use Rattle.search.specs.Limits.{capped};
ghost use Rattle.search.specs.Lively.{held_counter_lively};
ghost use Rattle.search.specs.Meanings.{counter_view};
ghost use Rattle.search.specs.States.{last_false, older};

use crate::counter::Counter;
use crate::held::Held;
use crate::limits::AGE_LIMIT;
use crate::searcher::Searcher;
use crate::status::Status;
use crate::written::Written;

impl Counter {
    // A counter that has begun over no variables.
    #[tactic(auto, unfolding(crate::specs::States::filled))]
    pub fn new() -> Counter
        ensures { counter_state result ≡ counter_start 0 }
    {
        Counter { held: Held::new() }
    }

    // On to the next assignment, variable 1 changing slowest; after the one that is all true, the search ends with none.
    #[tactic(auto, using(crate::proofs::Fills::length_counted))]
    fn advance(&mut self)
        ensures { older (counter_state self.new) ≡ counter_next (counter_state self.old) (last_false (counter_state self.old).values) }
    {
        if !self.held.count_up() {
            self.held.set_status(Status::Refuted);
        }
    }
}

impl Searcher for Counter {
    ghost view = { λ c. counter_view (counter_state c) };

    ghost stated = { λ variables. 2 ^ variables };

    ghost begins = { λ s variables t. counter_state t ≡ counter_start (capped variables) };

    ghost steps = { λ s codes t. counter_state t ≡ counter_step (counter_state s) codes };

    ghost lively = { λ c _ working. held_counter_lively c working };

    #[tactic(auto, using(crate::proofs::Fills::length_filled))]
    fn begin(&mut self, variables: usize) {
        let held = &mut self.held; // lent until every variable has a value
        held.begin(variables);
        held.fill();
    }

    fn step(&mut self, codes: &[u16]) {
        let age = self.held.age();
        if age == AGE_LIMIT {
            return;
        }
        match self.held.status() {
            Status::Working => match self.held.assignment().first_false(codes) {
                Some(_) => self.advance(),
                None => self.held.set_status(Status::Found),
            },
            Status::Found | Status::Refuted => return,
        }
        self.held.set_age(age + 1); // the last step counts too
    }

    fn status(&self) -> Status {
        self.held.status()
    }

    fn age(&self) -> u32 {
        self.held.age()
    }

    fn value(&self, variable: usize) -> Option<bool> {
        self.held.value(variable)
    }
}

impl Written for Counter {
    ghost state = { counter_state };

    ghost start = { counter_start };

    ghost next = { counter_step };

    ghost status_shown = { λ _. refl };

    ghost age_shown = { λ _. refl };

    ghost variables_shown = { λ _. refl };

    ghost values_shown = { λ _ _. refl };

    ghost starts = { λ _ _ _ e. e };

    ghost goes_on = { λ _ _ _ e. e };

    // The present assignment.
    fn values(&self) -> &[bool] {
        self.held.values()
    }
}
