use std::alloc::AllocError;

/// What stands against a text. A place is a byte offset.
#[derive(Clone, Copy, Debug, PartialEq, Eq)]
pub enum TextFault {
    /// A character that begins no token, or a `\` between quotes that no escape can begin with,
    /// however the text goes on.
    BadChar(usize),
    /// A quote that no quote closes.
    OpenText(usize),
    /// A `(*` that no `*)` closes.
    OpenComment(usize),
    /// The first character of a number that does not fit 128 bits, its sign if it has one.
    TooWide(usize),
    /// The first token with which the text begins nothing of what it is read as; or the end, where
    /// something is missing.
    Syntax(usize),
    /// The first token with which all that the text begins is too deep.
    TooDeep(usize),
}

/// Why a text was not read.
#[derive(Clone, Copy, Debug, PartialEq, Eq)]
pub enum TextError {
    /// This stands against it.
    Fault(TextFault),
    /// Memory ran out.
    Memory,
}

impl From<AllocError> for TextError {
    ghost use Rattle.std.specs.Prelude.{◌≡◌};
    ghost use Rattle.cd_syntax.specs.declared.fault.TextError.TheVariants.{Memory};

    ghost from_gives = { λ _ e. e ≡ Memory };

    fn from(_error: AllocError) -> TextError {
        TextError::Memory
    }
}
