ghost use Rattle.std.specs.Prelude.{◌≡◌, ◌<◌, ◌∷◌, Bool, MatchOption};
ghost use Rattle.cd_syntax.specs.Signs.{BeginsWith, closes as closes_of};
ghost use Rattle.cd_syntax.specs.declared.sign.Sign.{Sign as ASign};
ghost use Rattle.cd_syntax.specs.declared.tokens.TokenKind.TheVariants.{Sign as SignToken};
ghost use Rattle.cd_lex.specs.Inner.Standing.{BeginsWithNoSign, IsSignTo, IsTokenTo};
ghost use Rattle.cd_lex.specs.Inner.SignTable.{IsEither};

use crate::cursor::Cursor;
use cd_syntax::sign::Sign;

/// The longest sign of a text whose first character was taken off before, which is taken off. None
/// where no sign stands there, or a `-`, or a comment.
#[inline(always)]
pub(crate) fn take_sign(cursor: &mut Cursor<'_>, first: char) -> Option<Sign>
    ensures { MatchOption result ((cursor.new ≡ cursor.old) × BeginsWithNoSign (first ∷ cursor.old))
        (λ is. (joined : Bool) → IsTokenTo joined (first ∷ cursor.old) (SignToken is) cursor.new) }
{
    if first == '-' {
        return None;
    }
    if first == '(' {
        return open_parenthesis(cursor);
    }
    read_sign(cursor, first)
}

// The sign `(`, if it begins no comment.
#[inline(always)]
fn open_parenthesis(cursor: &Cursor<'_>) -> Option<Sign>
    ensures { MatchOption result Unit
        (λ is. (joined : Bool) → IsTokenTo joined (40 ∷ cursor.now) (SignToken is) cursor.now) }
{
    if cursor.again().take_this('*') {
        return None;
    }
    Some(Sign::OpenParenthesis)
}

// The same, where the character is no `(` and no `-`.
#[inline(always)]
fn read_sign(cursor: &mut Cursor<'_>, first: char) -> Option<Sign>
    requires parenthesis { first ≡ 40 → ⊥ }
    requires minus { first ≡ 45 → ⊥ }
    ensures { MatchOption result
        ((cursor.new ≡ cursor.old) × ((is : ASign) → BeginsWith (first ∷ cursor.old) is → ⊥))
        (λ is. IsSignTo (first ∷ cursor.old) is cursor.new) }
{
    let sign = match first {
        ')' => Sign::CloseParenthesis,
        '[' => Sign::OpenBracket,
        ']' => Sign::CloseBracket,
        '{' => Sign::OpenBrace,
        '}' => Sign::CloseBrace,
        ',' => Sign::Comma,
        '\\' => Sign::Backslash,
        '@' => Sign::At,
        '<' => either(cursor, '=', Sign::LessEqual, Sign::Less),
        '>' => either(cursor, '=', Sign::GreaterEqual, Sign::Greater),
        '=' => either(cursor, '?', Sign::EqualQuestion, Sign::Equal),
        '!' => either(cursor, '=', Sign::NotEqual, Sign::Splice),
        '?' => either(cursor, '?', Sign::QuestionQuestion, Sign::Question),
        '+' => either(cursor, '?', Sign::PlusQuestion, Sign::Plus),
        '&' => either(cursor, '&', Sign::AndAnd, Sign::And),
        '|' => either(cursor, '|', Sign::OrOr, Sign::Or),
        ';' => either(cursor, ';', Sign::Semicolons, Sign::Semicolon),
        '.' => either(cursor, '.', Sign::Dots, Sign::Dot),
        '/' => either(cursor, '@', Sign::SlashAt, Sign::Slash),
        '*' => after_star(cursor),
        ':' => return after_colon(cursor),
        _ => return None,
    };
    Some(sign)
}

// The longer sign, if this character goes on, which is taken off. Else the shorter one.
#[inline(always)]
fn either(cursor: &mut Cursor<'_>, next: char, long: Sign, short: Sign) -> Sign
    requires { next < 128 }
    ensures { IsEither next long short cursor.old result cursor.new }
{
    if cursor.take_this(next) { long } else { short }
}

// The longest sign that begins with a `*`.
#[inline(always)]
fn after_star(cursor: &mut Cursor<'_>) -> Sign
    ensures { IsSignTo (42 ∷ cursor.old) result cursor.new }
{
    if cursor.take_this('?') {
        return Sign::StarQuestion;
    }
    let mut ahead = cursor.again();
    if ahead.take_this('-') && ahead.take_this('-') {
        *cursor = ahead;
        return Sign::StarTo;
    }
    Sign::Star
}

/// Takes off the longest sign that begins with a `-`, which was taken off before.
pub(crate) fn after_minus(cursor: &mut Cursor<'_>) -> Sign
    ensures { IsSignTo (45 ∷ cursor.old) result cursor.new }
{
    if cursor.take_this('>') {
        return Sign::Arrow;
    }
    if !cursor.take_this('-') {
        return Sign::Minus;
    }
    either(cursor, '*', Sign::ToStar, Sign::To)
}

// The longest sign that begins with a `:`.
#[inline(always)]
fn after_colon(cursor: &mut Cursor<'_>) -> Option<Sign>
    ensures { MatchOption result
        ((cursor.new ≡ cursor.old) × ((is : ASign) → BeginsWith (58 ∷ cursor.old) is → ⊥))
        (λ is. IsSignTo (58 ∷ cursor.old) is cursor.new) }
{
    if cursor.take_this(':') {
        return Some(Sign::ColonColon);
    }
    if cursor.take_this('=') {
        return Some(Sign::Becomes);
    }
    None
}

/// Whether a sign is `)`, `]` or `}`.
pub(crate) fn closes(sign: Sign) -> bool
    ensures { result ≡ closes_of sign }
{
    matches!(
        sign,
        Sign::CloseParenthesis | Sign::CloseBracket | Sign::CloseBrace
    )
}
