//! A machine that runs programs.
#![tactic(auto)]

mod at_hand;
mod branches;
mod call;
mod enter;
mod environments;
mod frame;
mod lists;
mod machine;
mod maps;
mod operands;
pub mod outcome;
mod outcomes;
mod parts;
mod resume;
mod runs;
mod stack;
mod taking;
mod transforms;
mod turn;

pub use outcome::{Outcome, Ran};
pub use runs::run;
