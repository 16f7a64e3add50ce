//! The functions, the patterns and the sites of a program.

mod branches;
mod collected;
mod expr;
mod function;
mod functions;
mod key;
mod lists;
mod program;

pub use collected::Parts;
pub use functions::Functions;
pub use program::parts_of;
