//! Whether there is an element in some nodes of a graph and outside some others.
#![tactic(auto)]

mod boxes;
mod choosing;
mod decider;
mod doing;
mod frame;
pub mod laws;
mod parts;
mod running;
mod stack;
mod went;
mod working;
pub mod world;

pub use world::World;
