ghost use Rattle.std.specs.Prelude.{◌≡◌, ◌≢◌, codes, MatchOption, MatchBool};
ghost use Rattle.std.specs.Str.{chars};
ghost use Rattle.cd_syntax.specs.Name.{begins_word as begins_word_of};
ghost use Rattle.cd_lex.specs.Inner.Prefixes.{BeginsWithNoWord, IsWordTo};

use crate::cursor::Cursor;
use crate::run::Run;

/// The word at the start of a text, which is taken off, if one stands there.
pub(crate) fn take_word<'t>(cursor: &mut Cursor<'t>) -> Option<&'t str>
    ensures { MatchOption result ((cursor.new ≡ cursor.old) × BeginsWithNoWord cursor.old)
        (λ word. IsWordTo cursor.old (chars word.now) cursor.new) }
{
    match cursor.again().take() {
        Some(c) if begins_word(c) => Some(cursor.take_run(Run::Word)),
        _ => None,
    }
}

/// A character that a word may begin with: an ASCII letter or `_`.
pub(crate) fn begins_word(c: char) -> bool
    ensures { result ≡ begins_word_of c }
{
    c.is_ascii_alphabetic() || c == '_'
}

/// Whether a word is `_` alone.
pub(crate) fn is_underscore(word: &str) -> bool
    ensures { MatchBool result (chars word.now ≡ codes "_") (chars word.now ≢ codes "_") }
{
    word == "_"
}
