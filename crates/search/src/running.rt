ghost use Rattle.std.specs.Prelude.{IfOk};
ghost use Rattle.search.specs.Limits.{capped};
ghost use Rattle.search.specs.Searching.{Answers, Ran, steps_of};

use crate::outcome::Outcome;
use crate::problem::Problem;
use crate::searcher::Searcher;
use crate::status::Status;
use crate::watch::{Unwatched, Watch};

// Begins the searcher over the problem's variables, and steps it over the codes until it is no longer working or the budget is used.
// The watch sees it when it has begun and after each step; where the watch fails, so does the run.
pub fn run_watched<S: Searcher, W: Watch<S>>(
    searcher: &mut S,
    problem: Problem,
    watch: &mut W,
) -> Result<Outcome, W::Error>
    ensures answers { IfOk result (Answers (capped problem.entry.variables) (S.stated (capped problem.entry.variables)) problem.entry.codes.now problem.entry.budget (S.view searcher.new)) }
    ensures ran { IfOk result (λ r. Ran S.view S.begins S.steps problem.entry.variables problem.entry.codes.now (steps_of r) searcher.old searcher.new) }
{
    searcher.begin(problem.variables);
    watch.see(searcher)?;
    for _ in 0..problem.budget {
        let Status::Working = searcher.status() else {
            break;
        };
        searcher.step(problem.codes);
        watch.see(searcher)?;
    }
    Ok(Outcome::new(searcher.status(), searcher.age()))
}

// The same with no watch.
pub fn run<S: Searcher>(searcher: &mut S, problem: Problem) -> Outcome
    ensures answers { Answers (capped problem.entry.variables) (S.stated (capped problem.entry.variables)) problem.entry.codes.now problem.entry.budget (S.view searcher.new) result }
    ensures ran { Ran S.view S.begins S.steps problem.entry.variables problem.entry.codes.now (steps_of result) searcher.old searcher.new }
{
    let Ok(outcome) = run_watched(searcher, problem, &mut Unwatched);
    outcome
}
