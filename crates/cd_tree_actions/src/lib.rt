//! What the rules of types and patterns make of their parts.
#![tactic(auto)]

mod constants;
pub mod made;
mod names;
pub mod pairs;
pub mod part;
mod patterns;
mod records;
mod regular;
pub mod rows;
mod sequences;
pub mod taken;
mod tree_part;
mod trees;
pub mod triples;
pub mod words;
