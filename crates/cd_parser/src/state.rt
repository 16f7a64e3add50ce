ghost use Rattle.std.specs.Prelude.{◌≡◌, drop};
ghost use Rattle.cd_parser.specs.Ahead.{terminal_ahead};

use crate::cell::Cell;
use cd_syntax::tokens::Token;

/// Where the automaton stands.
#[derive(Drop)]
pub(crate) struct State<'t, P> {
    /// The tokens of the text.
    pub(crate) tokens: &'t [Token],
    /// How many of them were read.
    pub(crate) index: usize,
    /// What was read of them.
    pub(crate) stack: Vec<Cell<P>>,
    /// The terminal of the next one.
    pub(crate) terminal: u8,
    ghost ahead: { terminal ≡ terminal_ahead (drop index tokens.now) },
}
