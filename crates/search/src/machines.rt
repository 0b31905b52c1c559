// Runs of searchers that are written out.
ghost use Rattle.std.specs.Prelude.{◌≡◌, ℕ};
ghost use Rattle.search.specs.Held.{counter_state, walker_state};
ghost use Rattle.search.specs.Meanings.{counter_view, walker_view};
ghost use Rattle.search.specs.Runs.{run_of, counter_run, walker_run, answered, shown_of};
ghost use Rattle.search.specs.Searching.{told};
ghost use Rattle.search.specs.Statements.{CountsUp, Alike};

use crate::counter::Counter;
use crate::outcome::Outcome;
use crate::problem::Problem;
use crate::running::run;
use crate::walker::Walker;
use crate::written::Written;

// Answer, steps, values and what is shown at the end are those of the run that is written out, whatever the searcher held.
pub fn run_written<S: Written>(searcher: &mut S, problem: Problem) -> Outcome
    ensures answer { result ≡ answered (run_of S.start S.next problem.entry.variables problem.entry.codes.now problem.entry.budget) }
    ensures after { S.state searcher.new ≡ run_of S.start S.next problem.entry.variables problem.entry.codes.now problem.entry.budget }
    ensures shown { (v : ℕ) → told (S.view searcher.new) v ≡ shown_of (run_of S.start S.next problem.entry.variables problem.entry.codes.now problem.entry.budget) v }
{
    run(searcher, problem)
}

// Runs both over the same clauses. With budgets of their reserves they come to the same end.
#[tactic(auto, using(crate::proofs::Alikes::alike, crate::proofs::Alikes::counts_up))]
pub fn run_both(counter: &mut Counter, walker: &mut Walker, problem: Problem) -> (Outcome, Outcome)
    ensures counted { result.0 ≡ answered (counter_run problem.entry.variables problem.entry.codes.now problem.entry.budget) }
    ensures walked { result.1 ≡ answered (walker_run problem.entry.variables problem.entry.codes.now problem.entry.budget) }
    ensures counter_after { counter_state counter.new ≡ counter_run problem.entry.variables problem.entry.codes.now problem.entry.budget }
    ensures walker_after { walker_state walker.new ≡ walker_run problem.entry.variables problem.entry.codes.now problem.entry.budget }
    ensures counter_shown { (v : ℕ) → told (counter_view (counter_state counter.new)) v ≡ shown_of (counter_run problem.entry.variables problem.entry.codes.now problem.entry.budget) v }
    ensures walker_shown { (v : ℕ) → told (walker_view (walker_state walker.new)) v ≡ shown_of (walker_run problem.entry.variables problem.entry.codes.now problem.entry.budget) v }
    ensures counts { CountsUp }
    ensures alike { Alike }
{
    let counted = run_written(counter, problem);
    let walked = run_written(walker, problem);
    (counted, walked)
}
