//! The rules that decide emptiness, and the machine that goes by them, as definitions and laws alone.
#![tactic(auto)]

pub mod laws;
pub mod machine_laws;
pub mod task_laws;
