//! What is written: names, tokens and the trees of types, how texts lex to tokens, and what stands
//! against a text. The definitions stand in `specs/`.
#![tactic(auto)]

pub mod builtin;
pub mod constant;
pub mod fault;
mod make;
pub mod name;
pub mod order;
pub mod sign;
pub mod tokens;
pub mod type_tree;
