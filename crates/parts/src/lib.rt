// The parts of a rule: their names, their values, and all of them together.
#![tactic(auto)]

pub mod given;
mod names;
mod part;
