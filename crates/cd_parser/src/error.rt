ghost use Rattle.std.specs.Prelude.{◌≡◌};
ghost use Rattle.cd_syntax.specs.SyntaxFaults.{place_of as place_in};

use cd_syntax::tokens::Token;

/// How many of the forms that are counted may be open at a place.
pub(crate) const MOST_OPEN: usize = 1000;

/// Where the token with this number stands, from 0; after the last one it is the end.
pub(crate) fn place_of(tokens: &[Token], end: usize, index: usize) -> usize
    ensures { result ≡ place_in tokens.now end index }
{
    match tokens.get(index) {
        Some(token) => token.span.from,
        None => end,
    }
}
