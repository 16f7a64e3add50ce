//! What comes to a branch of what is in a type: whether anything does, and then the types of what the
//! variables of its pattern capture.
#![tactic(auto)]

mod capture;
mod coming;
mod take;

pub use coming::captures;
