//! That an accepted program never gets stuck.
#![tactic(auto)]

pub mod laws;
