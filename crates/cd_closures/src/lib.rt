//! Which arrows of a graph the closures of a program are in, by the interfaces of its functions.
#![tactic(auto)]

mod arrow;
mod arrows;
mod asked;
mod asking;
mod collecting;
mod entries;
mod functions;
mod maps;
mod put;

pub use maps::maps_of;
