//! The typing rules of programs, and their laws.
#![tactic(auto)]

pub mod laws;
pub mod rule;
