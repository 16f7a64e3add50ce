//! Facts: whether an element of the table is in a node of the graph, each found out once.
#![tactic(auto)]

pub mod facts;
mod facts_of_parts;
mod finding;
mod formula;
pub mod laws;
pub mod membership;
mod rising;
mod search;

pub use facts::Facts;
pub use membership::Membership;
