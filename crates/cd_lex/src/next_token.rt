ghost use Rattle.std.specs.Prelude.{◌≡◌, ◌≤◌, ℕ, Bool, List, [], length};
ghost use Rattle.std.specs.Prelude.{IfSome, MatchOption, IfOk, IfErr};
ghost use Rattle.cd_syntax.specs.Faults.{IfFault};
ghost use Rattle.cd_syntax.specs.Tokens.{joins as joins_of, bytes as bytes_of};
ghost use Rattle.cd_lex.specs.Lexing.{with_characters, token_with};
ghost use Rattle.cd_lex.specs.Inner.Prefixes.{BeginsWithNoBlank, BeginsWithNoWord};
ghost use Rattle.cd_lex.specs.Inner.Reading.{IsLexeme, IsReadTo, IsTokenRead, FailsUpTo};
ghost use Rattle.cd_lex.specs.Inner.Standing.{BeginsWithNoSign, IsTokenTo};

use crate::buffer::Buffer;
use crate::cursor::Cursor;
use crate::lexer::{Kind, Lexeme};
use crate::number::take_small;
use crate::piece::{Piece, prefix};
use crate::quoted::take_plain;
use crate::run::Run;
use crate::signs::{closes, take_sign};
use crate::word::begins_word;
use cd_syntax::fault::TextError;
use cd_syntax::tokens::Span;

/// Takes the next token off a text, and the blanks before it, if it is a word, a decimal number of
/// few digits, a text without escapes, or a sign that begins with no `-`. The text ends at this
/// byte. All that it uses is inlined, so that most tokens are read without a call.
#[inline(always)]
pub(crate) fn read_simple<'t>(
    cursor: &mut Cursor<'t>,
    buffer: &mut Buffer<'t>,
    joined: bool,
    end: usize,
) -> Option<(Kind, Span)>
    requires { bytes_of cursor.old ≤ end }
    ensures { IfSome result (λ token.
        IsTokenRead end joined cursor.old (token_with token.0 token.1 buffer.new) cursor.new) }
{
    skip_blanks(cursor, joined);
    let from = end - cursor.bytes();
    let kind = take_simple(cursor, buffer)?;
    let to = end - cursor.bytes();
    Some((kind, Span { from, to }))
}

/// Takes the next token off a text, and the blanks and comments before it. The text ends at this
/// byte.
pub(crate) fn read_lexeme<'t>(
    cursor: &mut Cursor<'t>,
    buffer: &mut Buffer<'t>,
    joined: bool,
    end: usize,
) -> Result<Lexeme, TextError>
    requires { bytes_of cursor.old ≤ end }
    ensures lexeme { IfOk result
        (λ lexeme. IsLexeme end joined cursor.old lexeme cursor.new buffer.new) }
    ensures fault { IfErr result (λ error. IfFault error (FailsUpTo end joined cursor.old)) }
{
    let mut joined = joined;
    loop {
        joined = skip_blanks(cursor, joined);
        let from = end - cursor.bytes();
        if let Some(kind) = take_simple(cursor, buffer) {
            let to = end - cursor.bytes();
            return Ok(Lexeme::Token(kind, Span { from, to }));
        }
        let Some(c) = cursor.take() else {
            return Ok(Lexeme::End);
        };
        match prefix(cursor, buffer, joined, c, from, end)? {
            Piece::Dropped => joined = false,
            Piece::Token(kind) => {
                let to = end - cursor.bytes();
                return Ok(Lexeme::Token(kind, Span { from, to }));
            }
        }
    }
}

// Takes the word, the sign, the decimal number or the text at the start off, but no sign that
// begins with `-`, no number of many digits, and no text with an escape.
#[inline(always)]
fn take_simple<'t>(cursor: &mut Cursor<'t>, buffer: &mut Buffer<'t>) -> Option<Kind>
    ensures { MatchOption result ((cursor.new ≡ cursor.old) × BeginsWithNoWord cursor.old
        × BeginsWithNoSign cursor.old)
        (λ kind. (joined : Bool)
        → IsTokenTo joined cursor.old (with_characters kind buffer.new) cursor.new) }
{
    let mut ahead = cursor.again();
    let c = ahead.take()?;
    if begins_word(c) {
        buffer.set(cursor.take_run(Run::Word));
        return Some(Kind::Word);
    }
    if let Some(sign) = take_sign(&mut ahead, c) {
        *cursor = ahead;
        return Some(Kind::Sign(sign));
    }
    if c.is_ascii_digit() {
        let value = take_small(&mut ahead, c)?;
        *cursor = ahead;
        return Some(Kind::Int(i128::from(value)));
    }
    if c != '"' {
        return None;
    }
    let text = take_plain(&mut ahead)?;
    buffer.set(text);
    *cursor = ahead;
    Some(Kind::Text)
}

// Takes the blanks at the start off, and says whether what stands after them is joined: where the
// text is, and has none.
#[inline(always)]
fn skip_blanks(cursor: &mut Cursor<'_>, joined: bool) -> bool
    ensures read { (end : ℕ) (first : Bool) (text : List ℕ)
        → IsReadTo end first text [] joined cursor.old
        → IsReadTo end first text [] result cursor.new }
    ensures fewer { bytes_of cursor.new ≤ bytes_of cursor.old }
    ensures shorter { length cursor.new ≤ length cursor.old }
    ensures next { BeginsWithNoBlank cursor.new }
{
    let blanks = cursor.take_run(Run::Blank);
    joined && blanks.is_empty()
}

/// Whether what follows a token at once is joined to it.
pub(crate) fn joins(kind: Kind) -> bool
    ensures { (characters : List ℕ) → result ≡ joins_of (with_characters kind characters) }
{
    match kind {
        Kind::Sign(sign) => closes(sign),
        _ => true,
    }
}
