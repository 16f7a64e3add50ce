//! Whether a value is in a node of a graph.
#![tactic(auto)]

mod along;
pub mod asker;
pub mod asking;
mod case;
mod field_rows;
mod finding;
pub mod laws;
mod leaf;
mod led;
pub mod mapped;
pub mod maps;
mod node;
mod node_sets;
mod row;
mod running;
mod shape;
mod step;
mod task;
mod tasks;

pub use asker::Asker;
pub use asking::is_in;
pub use maps::Maps;
