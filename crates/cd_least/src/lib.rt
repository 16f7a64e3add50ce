//! Least types of expressions, and faults of those that have none.
#![tactic(auto)]

pub mod laws;
