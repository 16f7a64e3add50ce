//! What programs mean: evaluation with units, a machine with a stack, and their laws.
#![tactic(auto)]

pub mod laws;
