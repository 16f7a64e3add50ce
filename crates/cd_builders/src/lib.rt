//! Nodes and formulas that crates of typing put into a graph: one more node, a union of questions,
//! and constants.
#![tactic(auto)]

mod alone;
mod constants;
mod formulas;
mod one_more;
mod outermost;
mod smaller;
mod unions;

pub use alone::only_node;
pub use constants::{atom, character, characters, integer, nil};
pub use formulas::union_formula;
pub use one_more::put;
pub use unions::union;
