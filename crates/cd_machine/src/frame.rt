//! What waits for an outcome.
use crate::environments::EnvId;
use cd_cells::ValueId;
use cd_program::expr::{Branches, Expr, FieldExpr, Item, Tail};
use cd_program::operator::{BuiltIn, Op};
use cd_syntax::name::Name;
use cd_syntax::type_tree::Tree;

/// What waits for an outcome, in an environment. What is done of a sequence is kept from the last
/// item, as a sequence.
#[derive(Clone, Copy)]
pub(crate) enum Frame<'p> {
    /// The first part of a tuple is evaluated, before these.
    First(&'p Expr, &'p [Expr], EnvId),
    /// The parts after this first one.
    Second(ValueId),
    /// An item, after those that are done.
    Iteming(ValueId, &'p [Item], EnvId),
    /// A sequence whose items stand there.
    Splicing(ValueId, &'p [Item], EnvId),
    /// A field, beside those of a record.
    Fielding(ValueId, &'p Name, &'p [FieldExpr], EnvId),
    /// The tag of an XML value, before its attributes and its content.
    Tagging(&'p Expr, &'p Expr, EnvId),
    /// The attributes, after the tag.
    Attributing(ValueId, &'p Expr, EnvId),
    /// The content, after both.
    Filling(ValueId, ValueId),
    /// A function, which is given these arguments.
    Called(&'p [Expr], EnvId),
    /// An argument of this function, before others.
    Argument(ValueId, &'p [Expr], EnvId),
    /// The value of `match`.
    Matching(&'p Branches, EnvId),
    /// The body of `try`.
    Trying(&'p Branches, EnvId),
    /// The value of `let`.
    Letting(&'p Tree, &'p Expr, EnvId),
    /// The condition of `if`.
    Asking(&'p Expr, &'p Expr, EnvId),
    /// The operand of a word.
    Wording(BuiltIn),
    /// The operand before these operators.
    Tailing(&'p [Tail], EnvId),
    /// The right operand of an operator, after the left one.
    Operating(Op, ValueId, &'p [Tail], EnvId),
    /// The sequence of `map`.
    Listing(&'p Branches, EnvId),
    /// What comes of an item of it, after the results that are done and before the items that are
    /// left.
    Mapping(&'p Branches, EnvId, ValueId, ValueId),
    /// The sequence of `transform`.
    Sifting(&'p Branches, EnvId),
    /// What comes of an item of it.
    Joining(&'p Branches, EnvId, ValueId, ValueId),
}
