//! The type checker: whether a program has types by the typing rules.
#![tactic(auto)]

mod base;
mod bodies;
mod branches;
mod chain;
mod constant;
mod expr;
mod fault;
mod function;
mod locals;
mod needing;
mod nodes;
mod operands;
mod program;
mod sites;
mod test;
mod variable;
mod world;

pub use fault::{CheckError, TypeFault};
pub use program::check_types;
pub use world::world_of;
