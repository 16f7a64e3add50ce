/// What is wrong with a name.
#[derive(Clone, Copy, Debug, PartialEq, Eq)]
pub enum NameFault {
    /// Nothing declares it there.
    Unknown,
    /// It is declared again, or a built-in type has it, or it is a label that stands twice in one
    /// record.
    Twice,
    /// It leads back to itself through connectives, names and `where` alone.
    Unguarded,
    /// An alternative of a union of patterns, or of a regular expression, has other variables than
    /// the first.
    VariablesDiffer,
    /// A variable stands again where both occurrences bind.
    VariableTwice,
    /// A plain variable stands under a postfix of a sequence.
    VariableRepeats,
    /// A variable stands under `->`, on a side of `\`, in an optional field or in a `where`.
    VariableMisplaced,
    /// No function `main` is declared.
    NoMain,
}
