//! A table of the values of programs, to which values are only added. Each is a cell of 16 bytes.
#![tactic(auto)]

pub mod cell;
pub mod laws;
mod lists;
pub mod names;
mod shared;
pub mod slots;
mod text_table;
pub mod values;

pub use cell::{Look, Part, ValueId};
pub use slots::Slots;
pub use values::Values;
