//! Whether a kernel takes a value, and what its variables capture.
#![tactic(auto)]

mod ask;
pub mod capture;
mod constants;
mod failures;
mod fields;
mod frame;
mod frames;
mod gather;
mod look;
mod look_field;
mod node_parts;
mod resume;
mod running;
pub mod taker;
pub mod type_tests;
mod views;

pub use capture::Capture;
pub use taker::Taker;
pub use type_tests::Tests;
