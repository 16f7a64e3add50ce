//! Verdicts on questions, the questions that are assumed to have no element, and what is known by both.
#![tactic(auto)]

pub mod asked;
pub mod hasher;
pub mod look;
pub mod verdict;
pub mod verdicts;

pub use verdict::Verdict;
