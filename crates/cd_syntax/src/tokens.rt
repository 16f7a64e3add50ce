use crate::name::Name;
use crate::sign::Sign;

/// Where a form stands in a text: the byte offset of its first character, and that of what follows
/// its last one.
#[derive(Clone, Copy, PartialEq, Eq)]
pub struct Span {
    /// The first byte.
    pub from: usize,
    /// The first byte after it.
    pub to: usize,
}

/// A token of a text, and where it stands.
#[derive(Drop)]
pub struct Token {
    /// What it is.
    pub kind: TokenKind,
    /// Where it stands.
    pub span: Span,
}

/// What a token is.
#[derive(Drop)]
pub enum TokenKind {
    /// A word: an ASCII letter or `_`, and then ASCII letters, digits and `_`.
    Word(Name),
    /// An integer.
    Int(i128),
    /// The characters between two `'`.
    Chars(Name),
    /// The characters between two `"`.
    Text(Name),
    /// An atom: the word after its backquote.
    Atom(Name),
    /// A sign.
    Sign(Sign),
}
