//! Kernels of patterns: the automata of sequences, and what is made of a pattern.
#![tactic(auto)]

mod chain;
mod complete;
mod copies;
mod count;
mod gathering;
pub mod laws;
mod make;
mod names;
mod nodes;
mod rows;
mod sort;
mod states;

pub use make::kernel;
