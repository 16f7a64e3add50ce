ghost use Rattle.std.specs.Prelude.{◌≡◌, map};
ghost use Rattle.cd_program.specs.Expr.{exprs_of, items_of, fields_of, tails_of, branches_of};
ghost use Rattle.cd_program.specs.PlainExpr.{plain, plain_exprs, plain_item, plain_items};
ghost use Rattle.cd_program.specs.PlainExpr.{plain_field, plain_fields, plain_tail, plain_tails};
ghost use Rattle.cd_program.specs.PlainExpr.{plain_branch, plain_branches};

use crate::operator::{BuiltIn, Op};
use cd_syntax::constant::Constant;
use cd_syntax::name::Name;
use cd_syntax::tokens::Span;
use cd_syntax::type_tree::Tree;

/// An expression as it is written, and where.
#[cycle(expr)]
#[derive(Drop)]
pub struct Expr {
    /// From the first character of its first token to the end of its last one.
    pub span: Span,
    /// What it is.
    pub kind: ExprKind,
}

/// What an expression is.
#[cycle(expr)]
#[derive(Drop)]
pub enum ExprKind {
    /// A constant.
    Constant(Constant),
    /// What this variable, or this function, stands for.
    Variable(Name),
    /// The pair of the first and the tuple of the others, or the other where there is one.
    Tuple(Exprs),
    /// The sequence of these items.
    Sequence(Items),
    /// The record of these fields.
    Record(FieldExprs),
    /// The XML element of a tag, attributes and a content.
    Xml(Box<Expr>, Box<Expr>, Box<Expr>),
    /// A function.
    Function(Box<FunctionTree>),
    /// The first applied to the second, the result of that to the third, and so on.
    Apply(Exprs),
    /// What the first branch gives that takes the value.
    Match(Box<Expr>, Branches),
    /// The value, or what the first branch gives that takes what is raised in its place.
    Try(Box<Expr>, Branches),
    /// For each item of a sequence what the first branch gives that takes it.
    Map(Box<Expr>, Branches),
    /// The items of what branches give for the items of a sequence that they take.
    Transform(Box<Expr>, Branches),
    /// The second, with the variables that the pattern has of the first.
    Let(Box<Tree>, Box<Expr>, Box<Expr>),
    /// The second where the first is true, or the third.
    If(Box<Expr>, Box<Expr>, Box<Expr>),
    /// Operators of one level, each on what those before it give.
    Chain(Box<Expr>, Tails),
    /// What the word says of its operand.
    Call(BuiltIn, Box<Expr>),
}

/// A list of expressions.
#[cycle(expr)]
#[derive(Drop)]
pub struct Exprs {
    pub(crate) items: Vec<Expr>,
}

/// A list of items.
#[cycle(expr)]
#[derive(Drop)]
pub struct Items {
    pub(crate) items: Vec<Item>,
}

/// What stands in a sequence.
#[cycle(expr)]
#[derive(Drop)]
pub enum Item {
    /// One item.
    One(Box<Expr>),
    /// The items of a sequence.
    Splice(Box<Expr>),
    /// Characters, each an item.
    Run(Name),
}

/// A list of fields.
#[cycle(expr)]
#[derive(Drop)]
pub struct FieldExprs {
    pub(crate) items: Vec<FieldExpr>,
}

/// A field of a record.
#[cycle(expr)]
#[derive(Drop)]
pub struct FieldExpr {
    /// Its label.
    pub label: Name,
    /// Where the label stands.
    pub at: usize,
    /// What it holds.
    pub expr: Expr,
}

/// A list of operators with their right sides.
#[cycle(expr)]
#[derive(Drop)]
pub struct Tails {
    pub(crate) items: Vec<Tail>,
}

/// An operator with its right side.
#[cycle(expr)]
#[derive(Drop)]
pub enum Tail {
    /// An operator between two operands.
    Operand(Op, Box<Expr>),
    /// `\`: the record without this field.
    Without(Name),
    /// `.`: this field.
    Select(Name),
}

/// A list of branches.
#[cycle(expr)]
#[derive(Drop)]
pub struct Branches {
    pub(crate) items: Vec<Branch>,
}

/// A branch.
#[cycle(expr)]
#[derive(Drop)]
pub struct Branch {
    /// What it takes.
    pub pattern: Tree,
    /// What it gives.
    pub body: Expr,
}

/// A function.
#[cycle(expr)]
#[derive(Drop)]
pub struct FunctionTree {
    /// Where the word `fun` stands.
    pub at: usize,
    /// Its name, if it has one.
    pub name: Option<Name>,
    /// Where the name stands, or the word `fun` where there is none.
    pub name_at: usize,
    /// Its arrows.
    pub interface: Interface,
    /// Its branches.
    pub branches: Branches,
}

/// The arrows of a function.
#[derive(Drop)]
pub struct Interface {
    pub(crate) items: Vec<Signature>,
}

/// An arrow of a function.
#[derive(Drop)]
pub struct Signature {
    /// What it takes.
    pub takes: Tree,
    /// What it gives for that.
    pub gives: Tree,
}
