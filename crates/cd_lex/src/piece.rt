ghost use Rattle.std.specs.Prelude.{◌≡◌, ◌≤◌, ◌-◌, ◌⊎◌, ◌∷◌, ℕ, Bool, true, false, List};
ghost use Rattle.std.specs.Prelude.{IfOk, IfErr};
ghost use Rattle.cd_syntax.specs.Name.{begins_word};
ghost use Rattle.cd_syntax.specs.Tokens.{is_blank, bytes as bytes_of};
ghost use Rattle.cd_syntax.specs.Numerals.{begins_number as begins_number_of};
ghost use Rattle.cd_syntax.specs.Faults.{is_other, IfFault, HasFaultHere};
ghost use Rattle.cd_lex.specs.Inner.Standing.{BeginsWithNoSign, Stands};
ghost use Rattle.cd_lex.specs.declared.lexer.Kind.TheVariants.{Text, Chars};

use crate::buffer::Buffer;
use crate::comment::close_comment;
use crate::cursor::Cursor;
use crate::lexer::Kind;
use crate::number::{begins_number, read_number};
use crate::quoted::{Quoted, read_quoted};
use crate::signs::after_minus;
use crate::word::{is_underscore, take_word};
use cd_syntax::fault::{TextError, TextFault};
use cd_syntax::sign::Sign;

/// What stands at the start of a text.
#[derive(Clone, Copy)]
pub(crate) enum Piece {
    /// A comment.
    Dropped,
    /// A token, whose characters are in the buffer.
    Token(Kind),
}

/// Takes off what stands at the start of a text, of which this character was taken off before: no
/// blank, no word, and no sign but one that begins with `(` or `-`. The text begins at this byte of
/// one that ends at that byte. It is joined where the token before it ends right here and keeps a
/// `-` from being the sign of a number.
pub(crate) fn prefix<'t>(
    cursor: &mut Cursor<'t>,
    buffer: &mut Buffer<'t>,
    joined: bool,
    c: char,
    at: usize,
    end: usize,
) -> Result<Piece, TextError>
    requires blank { is_blank c ≡ false }
    requires word { begins_word c ≡ false }
    requires sign { BeginsWithNoSign (c ∷ cursor.old) }
    requires at { at ≡ end - bytes_of (c ∷ cursor.old) }
    requires fits { bytes_of (c ∷ cursor.old) ≤ end }
    ensures piece { IfOk result
        (λ piece. Stands joined (c ∷ cursor.old) piece cursor.new buffer.new) }
    ensures fault { IfErr result
        (λ error. IfFault error (HasFaultHere joined at (c ∷ cursor.old))) }
{
    match c {
        _ if begins_number(cursor, c) => number(cursor, false, c, at),
        '"' | '\'' => quoted(cursor, buffer, c, at, end),
        '`' => atom(cursor, buffer, at),
        '(' => parenthesis(cursor, at),
        '-' => minus(cursor, joined, at),
        _ => Err(TextError::Fault(no_token(cursor, c, at))),
    }
}

// The number that begins with this character, after a `-` or without one.
fn number(cursor: &mut Cursor<'_>, negative: bool, c: char, at: usize) -> Result<Piece, TextError>
    requires { begins_number_of (c ∷ cursor.old) ≡ true }
    ensures piece { IfOk result (λ piece. (characters : List ℕ)
        → ((joined : Bool) → negative ≡ false
        → Stands joined (c ∷ cursor.old) piece cursor.new characters)
        × (negative ≡ true → Stands false (45 ∷ c ∷ cursor.old) piece cursor.new characters)) }
    ensures fault { IfErr result (λ error.
        ((joined : Bool) → negative ≡ false
        → IfFault error (HasFaultHere joined at (c ∷ cursor.old)))
        × (negative ≡ true → IfFault error (HasFaultHere false at (45 ∷ c ∷ cursor.old)))) }
{
    match read_number(cursor, negative, c) {
        Some(value) => Ok(Piece::Token(Kind::Int(value))),
        None => Err(TextError::Fault(TextFault::TooWide(at))),
    }
}

// What stands between quotes, of which the first was taken off before.
fn quoted<'t>(
    cursor: &mut Cursor<'t>,
    buffer: &mut Buffer<'t>,
    quote: char,
    at: usize,
    end: usize,
) -> Result<Piece, TextError>
    requires quote { (quote ≡ 34) ⊎ (quote ≡ 39) }
    requires at { at ≡ end - bytes_of (quote ∷ cursor.old) }
    requires fits { bytes_of (quote ∷ cursor.old) ≤ end }
    ensures piece { IfOk result (λ piece. (joined : Bool)
        → Stands joined (quote ∷ cursor.old) piece cursor.new buffer.new) }
    ensures fault { IfErr result
        (λ error. (joined : Bool) → IfFault error (HasFaultHere joined at (quote ∷ cursor.old))) }
{
    match read_quoted(cursor, buffer, quote)? {
        Quoted::Closed => Ok(Piece::Token(quoted_kind(quote))),
        Quoted::Breaks => Err(TextError::Fault(TextFault::BadChar(end - cursor.bytes()))),
        Quoted::Ends => Err(TextError::Fault(TextFault::OpenText(at))),
    }
}

fn quoted_kind(quote: char) -> Kind
    ensures text { quote ≡ 34 → result ≡ Text }
    ensures chars { quote ≡ 39 → result ≡ Chars }
{
    if quote == '"' {
        Kind::Text
    } else {
        Kind::Chars
    }
}

// The atom whose backquote was taken off before.
fn atom<'t>(cursor: &mut Cursor<'t>, buffer: &mut Buffer<'t>, at: usize) -> Result<Piece, TextError>
    ensures piece { IfOk result (λ piece. (joined : Bool)
        → Stands joined (96 ∷ cursor.old) piece cursor.new buffer.new) }
    ensures fault { IfErr result
        (λ error. (joined : Bool) → IfFault error (HasFaultHere joined at (96 ∷ cursor.old))) }
{
    match take_word(cursor) {
        Some(word) if !is_underscore(word) => {
            buffer.set(word);
            Ok(Piece::Token(Kind::Atom))
        }
        _ => Err(TextError::Fault(TextFault::BadChar(at))),
    }
}

// What begins with a `(`.
fn parenthesis(cursor: &mut Cursor<'_>, at: usize) -> Result<Piece, TextError>
    ensures piece { IfOk result (λ piece. (joined : Bool) (characters : List ℕ)
        → Stands joined (40 ∷ cursor.old) piece cursor.new characters) }
    ensures fault { IfErr result
        (λ error. (joined : Bool) → IfFault error (HasFaultHere joined at (40 ∷ cursor.old))) }
{
    if !cursor.take_this('*') {
        return Ok(Piece::Token(Kind::Sign(Sign::OpenParenthesis)));
    }
    if !close_comment(cursor) {
        return Err(TextError::Fault(TextFault::OpenComment(at)));
    }
    Ok(Piece::Dropped)
}

// What begins with a `-`.
fn minus(cursor: &mut Cursor<'_>, joined: bool, at: usize) -> Result<Piece, TextError>
    ensures piece { IfOk result (λ piece. (characters : List ℕ)
        → Stands joined (45 ∷ cursor.old) piece cursor.new characters) }
    ensures fault { IfErr result
        (λ error. IfFault error (HasFaultHere joined at (45 ∷ cursor.old))) }
{
    if joined {
        return Ok(Piece::Token(Kind::Sign(after_minus(cursor))));
    }
    let mut ahead = cursor.again();
    match ahead.take() {
        Some(c) if begins_number(&ahead, c) => {
            *cursor = ahead;
            number(cursor, true, c, at)
        }
        _ => Ok(Piece::Token(Kind::Sign(after_minus(cursor)))),
    }
}

// The fault of a character that begins no token.
fn no_token(cursor: &Cursor<'_>, c: char, at: usize) -> TextFault
    requires other { is_other c ≡ true }
    requires number { begins_number_of (c ∷ cursor.now) ≡ false }
    requires backquote { c ≡ 96 → ⊥ }
    requires parenthesis { c ≡ 40 → ⊥ }
    requires minus { c ≡ 45 → ⊥ }
    requires sign { BeginsWithNoSign (c ∷ cursor.now) }
    ensures { (joined : Bool) → HasFaultHere joined at (c ∷ cursor.now) result }
{
    TextFault::BadChar(at)
}
