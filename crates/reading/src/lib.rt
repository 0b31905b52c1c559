//! Lines of bytes, read as rules over names.
#![tactic(auto)]

pub mod examples;
pub mod fault;
mod lexer;
pub mod reader;
mod scanner;
