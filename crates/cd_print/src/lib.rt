//! The canonical text of a value.
#![tactic(auto)]

mod fields;
pub mod laws;
mod look;
pub mod print;
mod spine;
mod task;
mod value;

pub use print::print_value;
