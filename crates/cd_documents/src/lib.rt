//! Documents: their grammar and the machine that reads them, as definitions and laws alone.
#![tactic(auto)]

pub mod laws;
