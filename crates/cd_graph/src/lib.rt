//! Graphs of types: each node has a formula, which says what it holds.
#![tactic(auto)]

pub mod built_in;
pub mod fields;
pub mod formula;
pub mod graph;
pub mod laws;
mod make;

pub use formula::{Formula, Formulas};
pub use graph::Graph;
