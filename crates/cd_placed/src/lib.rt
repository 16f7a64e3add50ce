//! Where the functions and the patterns of a program stand in its text, and that its constants are
//! elements.
#![tactic(auto)]

pub mod laws;
