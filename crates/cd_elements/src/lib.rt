//! A table of elements, to which elements are only added, and their texts.
#![tactic(auto)]

pub mod elements;
mod look;
pub mod output;
pub mod quote;
mod rows;
mod sequence;
pub mod shape;
mod spine;
mod task;
mod text;

pub use elements::Elements;
pub use shape::{ElementId, Pairs, Parts, Shape};
