use crate::name::Name;

/// A constant of a pattern or an expression.
#[derive(Drop)]
pub enum Constant {
    /// An integer.
    Int(i128),
    /// A character.
    Char(char),
    /// An atom, by its name.
    Atom(Name),
    /// A text.
    Text(Name),
    /// The empty sequence.
    Nil,
}
