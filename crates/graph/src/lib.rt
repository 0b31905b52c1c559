//! The equality graph of formulas over lots: marks by rounds, components, filling and numbering.
#![tactic(auto)]

pub mod fewest;
pub mod laws;
pub mod link;
pub mod lowest;
pub mod pair;
pub mod picker;
pub mod standing;
