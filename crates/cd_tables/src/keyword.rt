/// A word that programs have for themselves.
#[derive(Clone, Copy, PartialEq, Eq)]
pub enum Keyword {
    /// `and`
    And,
    /// `div`
    Div,
    /// `else`
    Else,
    /// `flatten`
    Flatten,
    /// `from`
    From,
    /// `fun`
    Fun,
    /// `if`
    If,
    /// `in`
    In,
    /// `int_of`
    IntOf,
    /// `let`
    Let,
    /// `map`
    Map,
    /// `match`
    Match,
    /// `max_of`
    MaxOf,
    /// `min_of`
    MinOf,
    /// `mod`
    Mod,
    /// `not`
    Not,
    /// `raise`
    Raise,
    /// `select`
    Select,
    /// `string_of`
    StringOf,
    /// `then`
    Then,
    /// `transform`
    Transform,
    /// `try`
    Try,
    /// `type`
    Type,
    /// `where`
    Where,
    /// `with`
    With,
}
