//! Sets: of integers and of characters, each kept as its intervals in rising order, of atoms, and of
//! node numbers, with questions over these.
#![tactic(auto)]

pub mod atom_set;
pub mod char_set;
mod combine;
pub mod id_set;
pub mod int_set;
pub mod interval;
pub mod laws;
pub mod node_id;
pub mod question;
pub mod subsets;
