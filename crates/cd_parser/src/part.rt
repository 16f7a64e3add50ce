use cd_program::expr::{Branch, Expr, FieldExpr, FunctionTree, Item, Signature, Tail};
use cd_query::parts::{Source, Step};
use cd_syntax::type_tree::Declaration;
use cd_tree_actions::part::TreePart;

/// What a rule of the grammar made.
#[derive(Drop)]
pub(crate) enum Part<'t> {
    /// A token, or what a rule of types or patterns made.
    Tree(TreePart<'t>),
    /// An expression.
    Expr(Box<Expr>),
    /// A row of expressions.
    Exprs(Vec<Expr>),
    /// An expression, and operators after it.
    Chain(Box<Expr>, Vec<Tail>),
    /// Items of a sequence.
    Items(Vec<Item>),
    /// Fields of a record of expressions.
    ExprFields(Vec<FieldExpr>),
    /// Branches.
    Branches(Vec<Branch>),
    /// Arrows of a function.
    Signatures(Vec<Signature>),
    /// Steps of a path, from the last one to the first.
    Steps(Vec<Step>),
    /// Sources of a select, from the last one to the first, and the condition after them.
    Sources(Vec<Source>, Option<Box<Expr>>),
    /// A function.
    Function(Box<FunctionTree>),
    /// A program: types and functions.
    Program(Vec<Declaration>, Vec<FunctionTree>),
    /// Nothing of use.
    Junk,
}
