//! Nodes that stand for written types, or the naming fault of what is written.
#![tactic(auto)]

mod base;
mod check;
mod compare;
mod cycle;
mod declarations;
mod declare;
pub mod error;
pub mod fault;
mod found;
mod key;
pub mod laws;
pub mod least;
mod leaves;
mod links;
mod lookup;
mod members;
mod name_index;
mod names;
mod order;
mod ordering;
mod ranks;
mod read;
mod record;
pub mod reported;
mod scope;
mod scope_level;
mod search;
mod sequence;
mod solve;
mod sort;
mod state;
mod taken;
mod types;
mod walk;
mod wanted;

pub use check::{check_declarations, check_tree, names_of};
pub use name_index::NameIndex;
pub use names::Names;
pub use types::{Batch, TypeBatch, resolve, resolve_type, resolve_type_from};
pub use wanted::{TypesBatch, Want, WantedType, resolve_types};
