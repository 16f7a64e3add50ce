//! What clauses of pairs, XML elements and functions need to have members.
#![tactic(auto)]

pub mod parts;
mod sets_of;
