//! Kernels in which nodes that lead alike are one.
#![tactic(auto)]

mod alike;
mod classes;
mod falling;
mod key;
mod merge;
mod renamed;

pub use merge::kernel;
