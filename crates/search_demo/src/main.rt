// Runs the counter and the walker on problems from standard input, and prints each step's state and the answers.
//
// Each line is a problem: numbers in base ten with spaces between, each at most 65535. The first is how many
// variables there are, the second the budget of steps, and the others are codes, three to a clause: 2v says that
// variable v is true, 2v + 1 that it is false. `2 100 5 2 3 4 0 0` has two variables and two clauses.
// A line that is no such thing prints `?`. Any bytes may come.
#![tactic(auto)]

mod digits;
mod reading;
mod showing;

use crate::reading::read_numbers;
use crate::showing::{Shown, trace};
use clauses::WIDTH;
use lines::Lines;
use search::counter::Counter;
use search::machines::run_both;
use search::problem::Problem;
use search::walker::Walker;
use std::io;
use std::io::Read;

// Both searchers on one problem: each state of each, and then what both answer.
fn solve(rt: &HostRuntime, problem: Problem) -> io::Result<()> {
    let clauses = problem.codes.len() / WIDTH;
    println!(rt;
        "{} variables, {clauses} clauses, budget {}",
        problem.variables, problem.budget
    )?;
    let mut counter = Counter::new();
    let mut walker = Walker::new();
    trace(rt, &mut counter, problem)?;
    trace(rt, &mut walker, problem)?;
    let (counted, walked) = run_both(&mut counter, &mut walker, problem);
    println!(rt; "counter {counted} {}", counted.steps())?;
    println!(rt; "walker {walked} {}", walked.steps())
}

fn answer(rt: &HostRuntime, line: &[u8]) -> io::Result<()> {
    if let Some(numbers) = read_numbers(rt.alloc(), line)? {
        if let [variables, budget, codes @ ..] = numbers.as_slice() {
            let problem = Problem {
                variables: usize::from(*variables),
                codes,
                budget: u32::from(*budget),
            };
            return solve(rt, problem);
        }
    }
    println!(rt; "?")
}

fn main(rt: HostRuntime) -> io::Result<()> {
    let mut input = Vec::new(rt.alloc());
    rt.stdin().read_to_end(&mut input)?;
    for line in Lines::new(&input) {
        answer(&rt, line)?;
    }
    Ok(())
}
