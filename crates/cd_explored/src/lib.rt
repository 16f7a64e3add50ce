//! What the variables of a kernel capture, place by place: which places there are, their steps, and
//! formulas for what is captured there.
#![tactic(auto)]

pub mod base;
pub mod constants;
pub mod explore;
mod first;
mod first_wants;
pub mod formulas;
pub mod givers;
pub mod laws;
mod lead;
mod node_steps;
pub mod nodes;
mod numbering;
pub mod place;
pub mod places;
pub mod plan;
mod products;
mod reach;
mod records;
mod settle;
pub mod step;
mod swapped;
mod texts;
mod union;
pub mod want;
mod wants;
