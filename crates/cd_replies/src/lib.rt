//! What the commands share: files, the reading of texts, and messages.
#![tactic(auto)]

pub mod document;
pub mod file;
pub mod message;
pub mod naming;
pub mod position;
pub mod reader;
pub mod refusal;
