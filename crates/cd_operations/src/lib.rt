//! What operators, words and other forms do with values of a table.
#![tactic(auto)]

mod added;
mod arithmetic;
pub mod constants;
pub mod ending;
mod equality;
mod extremes;
pub mod joins;
mod merging;
pub mod operators;
pub mod pairs;
mod prepended;
pub mod records;
pub mod sequences;
mod spelling;
pub mod texts;
pub mod truths;
pub mod words;
pub mod xml;

pub use ending::Ending;
