use cd_syntax::tokens::Span;

/// A part that was read.
#[derive(Drop)]
pub(crate) struct Cell<P> {
    /// The state of the automaton after it.
    pub(crate) state: u16,
    /// How many levels may open after it.
    pub(crate) room: usize,
    /// How many steps of paths and sources of selects stand one in the other in it.
    pub(crate) nested: usize,
    /// Where it stands.
    pub(crate) span: Span,
    /// What it is.
    pub(crate) part: P,
}
