ghost use Rattle.std.specs.Prelude.{◌≡◌, ℕ, Bool, List, OnOk};
ghost use Rattle.search.specs.Held.{counter_state, walker_state};
ghost use Rattle.search.specs.Limits.{capped};
ghost use Rattle.search.specs.Searching.{Answers, Ran, outcome};
ghost use Rattle.search_demo.specs.Showing.{counter_name, walker_name};

use crate::digits::Digits;
use search::counter::Counter;
use search::problem::Problem;
use search::running::run_watched;
use search::searcher::Searcher;
use search::walker::Walker;
use search::watch::Watch;
use search::written::Written;
use std::io;

// A searcher with a name, whose values can be seen while it works.
pub trait Shown {
    ghost title: { List ℕ };

    ghost holds: { Self → List Bool };

    fn name(&self) -> &'static str
        ensures { result.now ≡ title };

    fn held(&self) -> &[bool]
        ensures { result.now ≡ holds self.now };
}

impl Shown for Counter {
    ghost title = { counter_name };

    ghost holds = { λ c. (counter_state c).values };

    fn name(&self) -> &'static str {
        "counter"
    }

    fn held(&self) -> &[bool] {
        self.values()
    }
}

impl Shown for Walker {
    ghost title = { walker_name };

    ghost holds = { λ w. (walker_state w).values };

    fn name(&self) -> &'static str {
        "walker"
    }

    fn held(&self) -> &[bool] {
        self.values()
    }
}

// Prints a searcher whenever it is seen.
#[derive(Drop)]
struct Printer<'a> {
    rt: &'a HostRuntime,
}

impl<S: Searcher + Shown> Watch<S> for Printer<'_> {
    type Error = io::Error;

    // what is printed no clause can say
    ghost sees = { λ before _ _ after. after ≡ before };

    fn see(&mut self, searcher: &S) -> io::Result<()> {
        let name = searcher.name();
        let digits = Digits(searcher.held());
        let status = searcher.status();
        println!(self.rt; "{name} {digits} {status}")
    }
}

// The searcher's state when it has begun, and after each step. Where all is written, the searcher has run as `run` runs it.
pub fn trace<S: Searcher + Shown>(
    rt: &HostRuntime,
    searcher: &mut S,
    problem: Problem,
) -> io::Result<()>
    ensures answers { OnOk result (Answers (capped problem.entry.variables) (S.stated (capped problem.entry.variables)) problem.entry.codes.now problem.entry.budget (S.view searcher.new) (outcome (S.view searcher.new).status (S.view searcher.new).age)) }
    ensures ran { OnOk result (Ran S.view S.begins S.steps problem.entry.variables problem.entry.codes.now (S.view searcher.new).age searcher.old searcher.new) }
{
    run_watched(searcher, problem, &mut Printer { rt })?;
    Ok(())
}
