//! Types of sequences: of those of one type followed by another, of their items, and of all
//! sequences of such items.

pub(crate) mod asking;
mod ending;
mod explore;
mod item_questions;
mod join;
mod list_type;
mod numbered;
mod of_items;
mod question_formulas;
mod state;
mod state_formulas;
mod step;

pub use join::joined;
pub use list_type::list_of;
pub use of_items::items;
