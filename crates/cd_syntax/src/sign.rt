/// A sign of a text.
#[derive(Clone, Copy, PartialEq, Eq)]
pub enum Sign {
    /// `*--`, before the upper bound of an interval that has no lower one.
    StarTo,
    /// `--*`, after the lower bound of an interval that has no upper one.
    ToStar,
    /// `*?`, as often as must be.
    StarQuestion,
    /// `+?`, once and as often as must be.
    PlusQuestion,
    /// `??`, not at all or once where it must be.
    QuestionQuestion,
    /// `=?`, between the label and the type of a field that may be absent.
    EqualQuestion,
    /// `--`, between two bounds.
    To,
    /// `->`, between an argument and a result, or a pattern and its expression.
    Arrow,
    /// `::`, after a variable that captures a sequence.
    ColonColon,
    /// `:=`, after a variable that has a default.
    Becomes,
    /// `..`, of an open record.
    Dots,
    /// `!=`.
    NotEqual,
    /// `<=`.
    LessEqual,
    /// `>=`.
    GreaterEqual,
    /// `&&`.
    AndAnd,
    /// `||`.
    OrOr,
    /// `;;`, after a declaration.
    Semicolons,
    /// `/@`, before the label of an attribute.
    SlashAt,
    /// `(`.
    OpenParenthesis,
    /// `)`.
    CloseParenthesis,
    /// `[`.
    OpenBracket,
    /// `]`.
    CloseBracket,
    /// `{`.
    OpenBrace,
    /// `}`.
    CloseBrace,
    /// `<`.
    Less,
    /// `>`.
    Greater,
    /// `=`.
    Equal,
    /// `?`.
    Question,
    /// `*`.
    Star,
    /// `+`.
    Plus,
    /// `-`.
    Minus,
    /// `\`, before a type that doesn't hold, or a label that is taken out.
    Backslash,
    /// `|`, between the types of a union, and between branches.
    Or,
    /// `&`, before a type that holds too.
    And,
    /// `,`, between the parts of a tuple.
    Comma,
    /// `;`.
    Semicolon,
    /// `.`, before the label of a field.
    Dot,
    /// `/`, before the tag of a child.
    Slash,
    /// `!`, before a sequence whose items are put in its place.
    Splice,
    /// `@`, between two sequences.
    At,
}
