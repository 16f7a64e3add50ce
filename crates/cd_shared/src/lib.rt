//! Equal nodes that are named by one number.
#![tactic(auto)]

mod alike;
mod classes;
mod equation;
mod kept;
pub mod laws;
mod renamed;
mod search;
mod sets;
mod shared;
mod sum;
mod tested;

pub use classes::Classes;
pub use equation::Equation;
pub use shared::{Shared, share};
