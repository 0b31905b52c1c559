//! Rules over names, read from tokens.
#![tactic(auto)]

pub mod build;
mod climb;
mod draft;
pub mod level;
pub mod line;
pub mod name;
pub mod state;
pub mod token;
