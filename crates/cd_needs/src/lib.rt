//! Questions of nodes, and what clauses of records need to have members, with their rows.
#![tactic(auto)]

pub mod asking;
mod cell;
pub mod labels;
mod needed;
pub mod reasons;
pub mod record_rows;
pub mod row;

pub use needed::needed_questions;
