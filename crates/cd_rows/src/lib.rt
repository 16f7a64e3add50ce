//! The records of questions as rows of questions.
#![tactic(auto)]

mod copied;
mod cut;
pub mod laws;
mod narrowed;
mod of_records;
mod refused;
mod row_clause;
mod witnesses;

pub use of_records::record_rows;
