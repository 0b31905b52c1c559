ghost use Rattle.std.specs.Prelude.{◌≡◌, ℕ, List};
ghost use Rattle.clauses.specs.Meaning.{assigned};
ghost use Rattle.search.specs.Limits.{capped};
ghost use Rattle.search.specs.States.{State};

use crate::searcher::Searcher;

// A searcher whose states are written out: the first over so many variables, and the next when codes are handed.
pub trait Written: Searcher {
    ghost state: { Self → State };

    ghost start: { ℕ → State };

    ghost next: { State → List ℕ → State };

    // The values held, of the first variables.
    fn values(&self) -> &[bool]
        ensures { result.now ≡ (state self.now).values };

    ghost status_shown: { (s : Self) → (Self.view s).status ≡ (state s).status };

    ghost age_shown: { (s : Self) → (Self.view s).age ≡ (state s).age };

    ghost variables_shown: { (s : Self) → (Self.view s).variables ≡ (state s).variables };

    ghost values_shown: { (s : Self) (v : ℕ) → (Self.view s).shown v ≡ assigned (state s).values v };

    ghost starts: { (s t : Self) (variables : ℕ) → Self.begins s variables t → state t ≡ start (capped variables) };

    ghost goes_on: { (s t : Self) (codes : List ℕ) → Self.steps s codes t → state t ≡ next (state s) codes };
}
