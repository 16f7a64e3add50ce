//! Patterns and kernels: their definitions and laws, and both as the code has them.
#![tactic(auto)]

pub mod constant;
pub mod examples;
pub mod kernel;
pub mod laws;
mod make;
pub mod pattern;
