use cd_syntax::constant::Constant;
use cd_syntax::tokens::Token;
use cd_syntax::type_tree::{
    Declaration, Declarations, FieldTree, Post, RegTree, Rest, SignedTree, Tree,
};

/// What a rule of types or patterns made.
#[derive(Drop)]
pub enum TreePart<'t> {
    /// A token.
    Token(&'t Token),
    /// A tree.
    Tree(Box<Tree>),
    /// A row of trees.
    Trees(Vec<Tree>),
    /// A tree, and those after signs.
    Signs(Box<Tree>, Vec<SignedTree>),
    /// Fields of a record, and what stands after them.
    Fields(Vec<FieldTree>, Rest),
    /// Declarations.
    Names(Vec<Declaration>),
    /// A file of declarations.
    File(Declarations),
    /// An expression of sequences.
    Regular(Box<RegTree>),
    /// A row of expressions of sequences.
    Regulars(Vec<RegTree>),
    /// The sign after an expression of sequences.
    Mark(Post),
    /// A constant of a pattern.
    Constant(Box<Constant>),
    /// Nothing of use.
    Junk,
}
