//! Regular expressions over nodes, and the nodes that hold the sequences that fit them.
#![tactic(auto)]

mod automaton;
mod count;
mod first_edges;
mod follow;
pub mod laws;
mod make;
pub mod regular;
mod states;

pub use automaton::sequence_nodes;
pub use regular::{Reg, Regs};
