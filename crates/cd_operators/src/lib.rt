//! The types of what operators give, and which operands they refuse.
#![tactic(auto)]

mod bound;
mod combined;
pub mod misfit;
mod need;
mod operation;
mod operators;
mod results;
mod select;
pub mod tools;
mod word;

pub use need::outside;
pub use operators::operate;
pub use select::{drop_field, take_field};
pub use word::call;
