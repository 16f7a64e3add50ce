//! The types, the files of declarations and the programs that tokens write.
#![tactic(auto)]

mod cell;
mod error;
mod expr_part;
mod exprs;
mod functions;
mod machine;
mod made;
mod nested;
mod pairs;
mod part;
mod parts;
mod paths;
mod popped;
mod program_taken;
mod reader;
mod reading;
mod selects;
mod stack;
mod state;
mod taken;
mod terminal;
mod tree_made;
mod triples;
pub mod types;
mod values;

pub use types::{parse_declarations, parse_program, parse_type};
