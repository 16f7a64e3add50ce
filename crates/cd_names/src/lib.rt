//! The naming fault of a program, and the nodes of arrows of interfaces.
#![tactic(auto)]

mod arrows;
mod base;
mod branches;
mod expr;
mod found;
mod function;
pub mod laws;
mod lists;
mod locals;
mod program;
mod record;
mod trees;

pub use arrows::{ArrowsBatch, resolve_arrows};
pub use program::check_program;
