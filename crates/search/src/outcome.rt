ghost use Rattle.std.specs.Prelude.{◌≡◌, Some};
ghost use Rattle.search.specs.Searching.{outcome, steps_of};
ghost use Rattle.search.specs.Words.{outcome_word};

use crate::status::Status;
use std::fmt;

// What a run answers, with the steps that it took: found, none (`Refuted`), or spent.
#[derive(Clone, Copy)]
pub enum Outcome {
    Found(u32),
    Refuted(u32),
    Spent(u32),
}

impl Outcome {
    // The answer of a run that took these steps and left this status.
    pub fn new(status: Status, steps: u32) -> Outcome
        ensures { result ≡ outcome status steps }
    {
        match status {
            Status::Working => Outcome::Spent(steps),
            Status::Found => Outcome::Found(steps),
            Status::Refuted => Outcome::Refuted(steps),
        }
    }

    pub fn steps(self) -> u32
        ensures { result ≡ steps_of self }
    {
        match self {
            Outcome::Found(steps) | Outcome::Refuted(steps) | Outcome::Spent(steps) => steps,
        }
    }

    pub fn word(self) -> &'static str
        ensures { result.now ≡ outcome_word self }
    {
        match self {
            Outcome::Found(_) => "found",
            Outcome::Refuted(_) => "none",
            Outcome::Spent(_) => "spent",
        }
    }
}

impl fmt::Display for Outcome {
    ghost output = { λ r. Some (outcome_word r) };

    fn fmt<W: fmt::Write>(&self, f: &mut fmt::Formatter<W>) -> fmt::Result {
        f.write_str(self.word())
    }
}
