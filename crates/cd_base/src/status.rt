ghost use Rattle.std.specs.Prelude.{◌≡◌};
ghost use Rattle.cd_base.specs.Status.{status_number};

/// How a run of the program ended.
#[derive(Clone, Copy, PartialEq, Eq)]
pub enum Status {
    /// The command succeeded.
    Done,
    /// An element of the first type is outside the second, or a value is not in the type.
    No,
    /// The words have no listed form.
    Usage,
    /// A file could not be read.
    ReadFault,
    /// The answer could not be written.
    WriteFault,
    /// Memory ran out.
    NoMemory,
    /// A file is larger than the limit.
    TooLarge,
    /// A file is not UTF-8.
    NotUtf8,
    /// A text has no list of tokens.
    Lexical,
    /// Tokens derive nothing.
    Syntax,
    /// A text is nested too deep.
    TooDeep,
    /// A name is unknown, declared twice or misused.
    Naming,
    /// The typing rules do not type the program.
    IllTyped,
    /// Nothing answers this: it keeps the number of what was once not built.
    NotBuilt,
    /// The document is not of the input type.
    NotInput,
    /// An exception was not caught.
    Uncaught,
    /// An integer left 128 bits.
    Overflow,
    /// The run needed more than its units.
    Spent,
}

impl Status {
    /// The number that the program ends with.
    pub fn number(&self) -> u8
        ensures { result ≡ status_number self.now }
    {
        *self as u8
    }
}
