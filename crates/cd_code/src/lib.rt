//! The code of a program that is resolved: what its patterns take, and what they bind.
#![tactic(auto)]

mod binding;
mod bindings;
mod capturing;
pub mod code;
mod compiling;
pub mod laws;
mod patterns;
mod take;
mod tests;

pub use code::Code;
pub use compiling::compile;
