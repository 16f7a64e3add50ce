//! Nodes for what expressions make of what their parts give.
#![tactic(auto)]

mod built_in;
mod constants;
mod letters;
mod members;
mod nodes;
mod of_sequences;
mod pairs;
mod put_items;
mod records;
mod rows;
mod sequences;
mod sorting;
mod texts;
mod tuples;
mod unions;
mod xmls;

pub use constants::constant;
pub use of_sequences::{items, joined, list_of};
pub use records::record;
pub use sequences::sequence;
pub use tuples::tuple;
pub use unions::union;
pub use xmls::xml;
