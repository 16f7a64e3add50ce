//! The pattern of a branch, as a checker of types has it: what it takes of a type, the types of
//! what its variables capture, and what it leaves.
#![tactic(auto)]

mod difference;
pub mod laws;
mod make;
mod members;
mod remain;
mod rest;
mod site;
mod tests;

pub use make::site_of;
pub use remain::remaining;
pub use site::Site;
