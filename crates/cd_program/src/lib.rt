//! What programs are as trees: expressions, functions and patterns. The definitions stand in `specs/`.
#![tactic(auto)]

pub mod expr;
mod lists;
mod make;
pub mod operator;
pub mod pattern;
pub mod program;
