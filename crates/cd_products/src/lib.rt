//! Questions of pairs and XML things as products of questions of their parts, and formulas and nodes
//! that keep a graph small.
#![tactic(auto)]

mod basic;
mod clause_box;
mod covered;
mod cut;
mod disjoint;
mod inhabited;
mod known;
pub mod laws;
mod likely;
mod narrowed;
mod of_pairs;
mod of_xmls;
mod question;
mod refused;
mod seen;
mod sets;

pub use covered::is_seen_within;
pub use disjoint::are_disjoint;
pub use known::known_node;
pub use likely::is_likely_within;
pub use narrowed::{within, without};
pub use of_pairs::pair_products;
pub use of_xmls::xml_triples;
pub use question::question_formula;
