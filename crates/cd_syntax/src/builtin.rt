/// The name of a type that is built in.
#[derive(Clone, Copy, PartialEq, Eq)]
pub enum BuiltinName {
    /// `Empty`: nothing.
    Empty,
    /// `Any` or `_`: everything.
    Any,
    /// `Int`: the integers of 128 bits.
    Int,
    /// `Char`: the characters, which are the Unicode scalar values.
    Char,
    /// `Byte`: the characters up to U+00FF.
    Byte,
    /// `Atom`: the atoms.
    Atom,
    /// `Bool`: the atoms `true` and `false`.
    Bool,
    /// `String`: the sequences of characters.
    String,
    /// `Arrow`: the functions.
    Arrow,
    /// `Pair`: the pairs.
    Pair,
    /// `Record`: the records.
    Record,
    /// `AnyXml`: the XML elements.
    AnyXml,
    /// `Data`: what holds no function.
    Data,
}
