//! Documents: the value of a text.
#![tactic(auto)]

mod at_field;
mod at_item;
mod at_tag;
mod at_value;
mod fields;
mod form;
mod items;
mod labels;
mod next_token;
mod open_label;
mod open_labels;
pub mod read;
mod reader;
mod sorting;
mod stack;
mod terminal;

pub use read::read_value;
