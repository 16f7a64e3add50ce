//! A site of a program.

use cd_program::expr::Branches;
use cd_syntax::type_tree::Tree;

/// A site of a program, which matches values against patterns, by what is written there.
#[derive(Clone, Copy)]
pub enum SiteTree<'p> {
    /// The branches of a function, a `match` or a `map`.
    Branches(&'p Branches),
    /// The pattern of a `let`.
    Let(&'p Tree),
    /// The branches of a `try`.
    Try(&'p Branches),
    /// The branches of a `transform`.
    Transform(&'p Branches),
}
