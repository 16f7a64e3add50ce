/// An operator between two operands.
#[derive(Clone, Copy, PartialEq, Eq)]
pub enum Op {
    /// `||`.
    Or,
    /// `&&`.
    And,
    /// `=`.
    Equal,
    /// `!=`.
    Unequal,
    /// `<`.
    Less,
    /// `<=`.
    AtMost,
    /// `>`.
    Greater,
    /// `>=`.
    AtLeast,
    /// `@`, of two sequences.
    Concat,
    /// `+`, of integers or of records.
    Plus,
    /// `-`.
    Minus,
    /// `*`.
    Times,
    /// `div`: the quotient, rounded toward zero.
    Div,
    /// `mod`: what is left by `div`.
    Mod,
}

/// A word that stands before its operand.
#[derive(Clone, Copy, PartialEq, Eq)]
pub enum BuiltIn {
    /// `not`.
    Not,
    /// `flatten`: the sequences of a sequence, one after the other.
    Flatten,
    /// `int_of`: the integer that a text spells.
    IntOf,
    /// `string_of`: the text of an integer.
    StringOf,
    /// `min_of`: the least integer of a sequence.
    MinOf,
    /// `max_of`: the greatest integer of a sequence.
    MaxOf,
    /// `raise`.
    Raise,
}

/// A form with branches.
#[derive(Clone, Copy, PartialEq, Eq)]
pub enum Form {
    /// `match`: the first branch that takes the value.
    Match,
    /// `try`: the first branch that takes what is raised.
    Try,
    /// `map`: for each item the first branch that takes it.
    Map,
    /// `transform`: the same, where items that no branch takes are left out.
    Transform,
}
