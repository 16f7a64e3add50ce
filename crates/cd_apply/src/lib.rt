//! What functions give for arguments.
#![tactic(auto)]

pub mod application;
mod beyond;
mod clauses;
mod found;
mod image;
mod refusing;
mod subsumed;
mod unsettled;
mod walk;

pub use application::{Applied, apply};
