//! What records have at a label, records without a label, and merged records, as nodes that hold
//! exactly these elements.
#![tactic(auto)]

mod batch;
mod both;
mod choice;
mod fields;
mod labels;
mod leaving;
mod made;
mod merged_formulas;
mod merging;
mod node_rows;
mod putting;
mod questions;
mod record_type;
mod rest;
mod rest_formulas;
mod rests;
mod rows;
mod said;
mod splitting;
mod union;

pub use fields::field;
pub use leaving::without;
pub use merging::merged;
