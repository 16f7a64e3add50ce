//! The types of what kernels take and of what their variables capture.
#![tactic(auto)]

pub mod accept;
mod batch;
mod combining;
mod formed;
pub mod laws;
mod members;
mod own;
mod rows;

pub use accept::{AcceptedNodes, accepted};
