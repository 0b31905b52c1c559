// Searchers: what one is, by a trait; the counter and the walker; and a run of any of them with a budget of steps.
#![tactic(auto)]

pub mod counter;
pub mod examples;
mod held;
pub mod limits;
pub mod machines;
pub mod outcome;
pub mod problem;
pub mod running;
pub mod searcher;
pub mod status;
pub mod walker;
pub mod watch;
pub mod written;
