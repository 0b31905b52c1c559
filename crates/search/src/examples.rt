// Worked examples, through the code.
ghost use Rattle.std.specs.Prelude.{◌≡◌};
ghost use Rattle.search.specs.Examples.{WorkedExamples};
ghost use Rattle.search.specs.Runs.{counter_run, walker_run, answered};

use crate::counter::Counter;
use crate::machines::run_both;
use crate::outcome::Outcome;
use crate::problem::Problem;
use crate::walker::Walker;

// Variables 1 and 3 true, 2 false, and the clauses of a triangle: nothing meets them.
pub const TRIANGLE: [u16; 18] = [2, 0, 0, 6, 0, 0, 5, 0, 0, 3, 7, 4, 3, 5, 6, 5, 7, 2];

// Variable 2 true, and if it is so, variable 1 either way.
pub const EITHER_WAY: [u16; 6] = [5, 2, 3, 4, 0, 0];

// A clause that says nothing.
pub const EMPTY_CLAUSE: [u16; 3] = [0, 0, 0];

// A new counter and a new walker on one problem.
fn both(variables: usize, codes: &[u16], budget: u32) -> (Outcome, Outcome)
    ensures counted { result.0 ≡ answered (counter_run variables codes.now budget) }
    ensures walked { result.1 ≡ answered (walker_run variables codes.now budget) }
{
    let mut counter = Counter::new();
    let mut walker = Walker::new();
    let problem = Problem {
        variables,
        codes,
        budget,
    };
    run_both(&mut counter, &mut walker, problem)
}

// On the triangle, with ample budget: the counter says none after 8 steps, the walker after 7.
pub fn triangle() -> (Outcome, Outcome)
    ensures counted { result.0 ≡ Outcome.Refuted 8 }
    ensures walked { result.1 ≡ Outcome.Refuted 7 }
    ensures examples { WorkedExamples }
{
    both(3, &TRIANGLE, 100)
}

// With a step too few for either.
pub fn triangle_cut_short() -> (Outcome, Outcome)
    ensures counted { result.0 ≡ Outcome.Spent 6 }
    ensures walked { result.1 ≡ Outcome.Spent 6 }
{
    both(3, &TRIANGLE, 6)
}

// The counter is found after 2 steps, the walker after 4.
pub fn either_way() -> (Outcome, Outcome)
    ensures counted { result.0 ≡ Outcome.Found 2 }
    ensures walked { result.1 ≡ Outcome.Found 4 }
{
    both(2, &EITHER_WAY, 100)
}

// No clauses and no variables: the first step finds.
pub fn nothing_asked() -> (Outcome, Outcome)
    ensures counted { result.0 ≡ Outcome.Found 1 }
    ensures walked { result.1 ≡ Outcome.Found 1 }
{
    both(0, &[], 1)
}

// The same with no budget.
pub fn nothing_spent() -> (Outcome, Outcome)
    ensures counted { result.0 ≡ Outcome.Spent 0 }
    ensures walked { result.1 ≡ Outcome.Spent 0 }
{
    both(0, &[], 0)
}

// A clause that nothing meets: the first step says none.
pub fn empty_clause() -> (Outcome, Outcome)
    ensures counted { result.0 ≡ Outcome.Refuted 1 }
    ensures walked { result.1 ≡ Outcome.Refuted 1 }
{
    both(0, &EMPTY_CLAUSE, 1)
}
