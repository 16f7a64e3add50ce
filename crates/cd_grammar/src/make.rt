use cd_program::operator::{BuiltIn, Form, Op};
use cd_syntax::type_tree::Post;

/// What a rule of the grammar makes of its parts.
#[derive(Clone, Copy, PartialEq, Eq)]
pub enum Make {
    /// Of its one part.
    One(One),
    /// Of two parts.
    Two(Two),
    /// Of three.
    Three(Three),
    /// Of four.
    Four(Four),
    /// Of five.
    Five(Five),
    /// Of six.
    Six(Six),
}

/// What is made of one part.
#[derive(Clone, Copy, PartialEq, Eq)]
pub enum One {
    /// The part as it is.
    That,
    /// The union of a row.
    Union,
    /// The arrows between the trees of a row.
    Arrows,
    /// What is left of a tree by those after the signs.
    Meet,
    /// A number.
    Number,
    /// A character.
    Character,
    /// The sequence of the characters of a text.
    Text,
    /// An atom.
    Atom,
    /// The type of a name.
    Named,
    /// Everything.
    Any,
    /// The atom of a label.
    Label,
    /// No field, beside which others may stand.
    Others,
    /// The record of attributes.
    Attributes,
    /// A type that is one item.
    Item,
    /// Characters, each an item.
    Run,
    /// One of a row of expressions.
    Alternatives,
    /// The expressions of a row, one after the other.
    InTurn,
    /// A sign after an expression.
    Mark(Post),
    /// A file without declarations.
    NoFile,
    /// A variable of a pattern.
    Variable,
    /// A constant of a pattern.
    Constant,
    /// A program without declarations.
    NoProgram,
    /// A program of a type.
    FirstType,
    /// A program of a function.
    FirstFunction,
    /// Operators of one level after their first operand.
    Chain,
    /// The first of a row applied to the others.
    Apply,
    /// A constant as an expression.
    ConstantExpr,
    /// A variable as an expression.
    VariableExpr,
    /// The atom of a label as an expression.
    LabelExpr,
    /// The record of attributes as an expression.
    AttributesExpr,
    /// Characters as items of a sequence.
    RunItem,
    /// An expression as an item of a sequence.
    OneItem,
}

/// What is made of two parts.
#[derive(Clone, Copy, PartialEq, Eq)]
pub enum Two {
    /// The first part.
    First,
    /// The second part.
    Second,
    /// The numbers from a number on, or up to it.
    HalfInterval,
    /// Fields beside which others may stand.
    AndOthers,
    /// Fields, and those after them.
    NextFields,
    /// A record without fields.
    NoFields,
    /// The empty sequence.
    EmptySequence,
    /// A row of two expressions.
    TwoRegulars,
    /// A row, and an expression after it.
    NextRegular,
    /// A row of an item and an expression.
    ItemRegular,
    /// An expression as often as the sign says.
    Repeated,
    /// An item as often as the sign says.
    RepeatedItem,
    /// Declarations, and those after them.
    NextNames,
    /// A file of declarations.
    File,
    /// The constant that is the empty sequence.
    Nil,
    /// A program, and a type after it.
    NextType,
    /// A program, and a function after it.
    NextFunction,
    /// Branches, and those after them.
    NextBranches,
    /// A word before its operand.
    Call(BuiltIn),
    /// A row of a function and its argument.
    Applied,
    /// A row, and an argument after it.
    NextApplied,
    /// The empty sequence as an expression.
    NoItems,
    /// Items, and those after them.
    NextItems,
    /// The items of a sequence.
    Splice,
    /// The record without fields as an expression.
    NoExprFields,
    /// Fields of an expression, and those after them.
    NextExprFields,
    /// An expression, and what its steps lead to.
    Path,
    /// A step to a field.
    FieldStep,
    /// A step to the children of a tag.
    ChildStep,
    /// A step to an attribute.
    AttributeStep,
}

/// What is made of three parts, where most often the second is a sign.
#[derive(Clone, Copy, PartialEq, Eq)]
pub enum Three {
    /// The part between two signs.
    Between,
    /// A row of two trees.
    TwoTrees,
    /// A row, and a tree after it.
    NextTree,
    /// A tree, and a row after it.
    BeforeTrees,
    /// The tuple of a row between two signs.
    Tuple,
    /// A tree and one after `&`, or with false after `\`.
    FirstSign(bool),
    /// A further tree after `&`, or with false after `\`.
    NextSign(bool),
    /// The numbers from the first to the third part.
    Interval,
    /// The characters from the first to the third part.
    Characters,
    /// A name with its tree.
    Name,
    /// Names, and those after them.
    AndNames,
    /// A tree under its declarations.
    Where,
    /// A label with its tree; with true it may be absent.
    Field(bool),
    /// Fields, and those after them.
    SeparateFields,
    /// Fields beside which others may stand.
    SeparateOthers,
    /// No field, beside which others of a type may stand.
    TypedOthers,
    /// The record of fields between two signs.
    Record,
    /// The sequences of an expression between two signs.
    Sequence,
    /// A row of two expressions.
    EitherRegular,
    /// A row, and an expression after it.
    OrRegular,
    /// A row, and an item after it.
    OrItem,
    /// A row of an expression and an item.
    RegularOrItem,
    /// A row of an item and an expression.
    ItemOrRegular,
    /// Items, and an expression after them.
    ItemsOrRegular,
    /// A variable, and the expression whose items it has.
    Capture,
    /// What a function takes, and what it gives for that.
    Signature,
    /// Arrows of a function, and those after them.
    SeparateSignatures,
    /// A pattern, and what is given where it takes.
    Branch,
    /// A function without a name.
    UnnamedFunction,
    /// An operator between its first two operands.
    FirstOperand(Op),
    /// A further operator with its right side.
    NextOperand(Op),
    /// A record without a field.
    FirstWithout,
    /// The same after further operators.
    NextWithout,
    /// A step to a field, and those after it.
    BeforeFieldStep,
    /// A step to the children of a tag, and those after it.
    BeforeChildStep,
    /// A step to an attribute, and those after it.
    BeforeAttributeStep,
    /// A pattern, and the sequence from which it takes items.
    Source,
    /// A row of two expressions.
    TwoExprs,
    /// A row, and an expression after it.
    NextExpr,
    /// The tuple of a row between two signs, as an expression.
    TupleExpr,
    /// The sequence of items between two signs.
    SequenceExpr,
    /// The record of fields between two signs, as an expression.
    RecordExpr,
    /// A label with its expression.
    ExprField,
    /// Fields of an expression, and those after them.
    SeparateExprFields,
}

/// What is made of four parts.
#[derive(Clone, Copy, PartialEq, Eq)]
pub enum Four {
    /// A declaration of a type.
    Declaration,
    /// An XML type without attributes, which stand at the `>`.
    Xml,
    /// A form with branches.
    Matching(Form),
    /// A function with a name.
    NamedFunction,
    /// An XML element without attributes, as an expression.
    XmlExpr,
}

/// What is made of five parts.
#[derive(Clone, Copy, PartialEq, Eq)]
pub enum Five {
    /// An XML type with attributes.
    XmlWith,
    /// A variable that is a constant.
    Default,
    /// A function that is declared.
    DeclaredFunction,
    /// An XML element with attributes, as an expression.
    XmlExprWith,
    /// A source of a select, and the condition after it.
    SourceWhere,
    /// A source of a select, and those after it.
    BeforeSources,
}

/// What is made of six parts.
#[derive(Clone, Copy, PartialEq, Eq)]
pub enum Six {
    /// A value for the variables of a pattern, and what they stand in.
    Let,
    /// A condition, and what is given where it is true and where it is false.
    If,
    /// What is given for the items that sources give.
    Selecting,
}
