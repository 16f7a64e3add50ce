//! That a program that a text writes is safe, where it has types and its names are sound.
#![tactic(auto)]

pub mod laws;
