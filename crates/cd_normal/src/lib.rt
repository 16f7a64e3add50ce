//! What is in questions: their integers, characters and atoms, and clauses for the other kinds.
#![tactic(auto)]

pub mod advance;
pub mod basic_sets;
pub mod clause;
mod conjunct;
pub mod conjuncts;
mod going_on;
mod holding;
mod joining;
mod kind;
mod literal;
mod needs;
mod normal;
mod of_conjunct;
mod part;
mod partial;
mod side;

pub use holding::basics;
pub use normal::clauses;
