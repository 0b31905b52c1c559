//! The tables of lots and rules: names of lots in the order in which they first stand, and rules over
//! their numbers, each in force or struck.
#![tactic(auto)]

pub mod examples;
pub mod fault;
mod keeping;
mod lots;
mod numbering;
pub mod rule;
pub mod tables;
