//! The types of what the variables of a kernel capture.
#![tactic(auto)]

mod capture;
mod known;

pub use capture::captured;
