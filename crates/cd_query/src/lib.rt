//! The expressions that selects and the steps of paths stand for.
#![tactic(auto)]

pub mod parts;
mod patterns;
pub mod queries;
