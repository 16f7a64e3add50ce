//! Elements that are made for tasks, of elements of their questions.
#![tactic(auto)]

mod arrow;
mod attempt;
mod basic;
mod compare;
mod fresh;
mod held;
mod labels;
mod making;
mod pair;
mod parts;
mod record;
mod xml;

pub use attempt::{Attempt, attempt_task};
pub use basic::basic_element;
pub use held::held_places;
