//! The steps of paths and the sources of selects.
use cd_program::expr::Expr;
use cd_syntax::name::Name;
use cd_syntax::tokens::Span;
use cd_syntax::type_tree::Tree;

/// A step of a path.
#[derive(Drop)]
pub enum Step {
    /// To a field: where its label stands, and the label.
    Field(Span, Name),
    /// To the children of a tag: where the sign stands, and the label.
    Child(Span, Span, Name),
    /// To an attribute, in the same way.
    Attribute(Span, Span, Name),
}

/// What is taken from which sequence.
#[derive(Drop)]
pub struct Source {
    /// What takes the items.
    pub pattern: Box<Tree>,
    /// The sequence.
    pub value: Box<Expr>,
}
