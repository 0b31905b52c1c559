//! Formulas over pairs: tables of nodes in which parts stand before the whole, their truth in a
//! scale, and their negation normal form.
#![tactic(auto)]

pub mod bounded;
pub mod evaluation;
pub mod formula;
pub mod literal;
pub mod node;
pub mod normal;
pub mod scale;
pub mod table;
