//! Tables of words. A word is looked up by binary search.
#![tactic(auto)]

pub mod keyword;
pub mod row;
mod spelling;
pub mod table;
pub mod words;
