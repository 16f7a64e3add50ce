//! What is to do for clauses: tasks, their questions, and their cases. And, where all are asked for,
//! the ways of the needs of a clause, and the rows of a clause of records, one after the other.
#![tactic(auto)]

mod arrow;
mod cases;
mod clauses;
mod given;
mod group;
pub mod laws;
mod lists;
mod odometer;
mod of_clause;
mod pair;
mod questions;
mod reasons;
mod record;
mod row_walk;
pub mod task;
mod walk;
mod way;
mod xml;
mod xml_group;

pub use of_clause::tasks_of;
pub use row_walk::{RowStep, RowWalk};
pub use task::{ArrowTask, PairTask, RecordTask, Task, XmlTask};
pub use walk::{Step, Walk};
