//! That written types have nodes, so that a program whose names are sound is safe.
#![tactic(auto)]

pub mod laws;
