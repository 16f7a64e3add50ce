//! The variables of a pattern, and their faults.
#![tactic(auto)]

mod alternatives;
mod choice;
pub mod laws;
mod misplaced;
mod name_set;
pub mod occurrence;
mod pattern;
mod regular;
mod row;
mod seen;
mod turn;

pub use pattern::check_variables;
