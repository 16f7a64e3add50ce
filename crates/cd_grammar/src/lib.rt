//! The grammar of types, patterns and programs: what tokens write, what a fault of tokens is, and the tables of the LR automaton that reads them.
#![tactic(auto)]

pub mod goal;
pub mod laws;
pub mod make;
pub mod program_laws;
pub mod table;
mod tables;
