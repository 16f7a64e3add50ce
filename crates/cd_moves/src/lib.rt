//! Moves of the states of automata of sequence patterns, and the first moves of a part of such a pattern.
#![tactic(auto)]

pub mod first_moves;
pub mod moves;
