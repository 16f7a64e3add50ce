//! Nodes of what may come to the sites of a program.
#![tactic(auto)]

mod matched;

pub use matched::matched_nodes;
