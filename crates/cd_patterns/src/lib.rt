//! Patterns over the nodes of a graph, which stand for written ones.
#![tactic(auto)]

mod build;
mod constants;
mod resolve;
mod roots;
mod variables;
mod wanted;

pub use resolve::{PatternBatch, resolve_pattern};
