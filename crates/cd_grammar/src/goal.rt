/// What a text is to be.
#[derive(Clone, Copy, PartialEq, Eq)]
pub enum Goal {
    /// A type.
    TypeText,
    /// A file of type declarations.
    TypeFile,
    /// A program.
    ProgramText,
}
