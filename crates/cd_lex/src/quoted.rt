ghost use Rattle.std.specs.Prelude.{◌≡◌, ◌≤◌, ◌<◌, ◌∷◌, true, length};
ghost use Rattle.std.specs.Prelude.{IfOk, IfSome, SomeIff, MatchOption};
ghost use Rattle.std.specs.Str.{chars};
ghost use Rattle.std.specs.Char.{IsScalar, is_ascii_digit};
ghost use Rattle.cd_syntax.specs.Digits.{decimal_value};
ghost use Rattle.cd_lex.specs.Inner.Prefixes.{first_digits, after_digits};
ghost use Rattle.cd_lex.specs.Inner.Quoted.{IsClosed, IsQuoted};
ghost use Rattle.cd_lex.specs.Inner.Quoting.{IsMeant, IsEscape};

use crate::buffer::Buffer;
use crate::cursor::Cursor;
use crate::number::digit;
use crate::run::Run;
use std::alloc::AllocError;

/// What stands after an opening quote.
#[derive(Clone, Copy)]
pub(crate) enum Quoted {
    /// Characters before a closing quote.
    Closed,
    /// A `\` that begins no escape.
    Breaks,
    /// No closing quote.
    Ends,
}

/// The characters between two `"`, the first of which was taken off before, if they stand for
/// themselves. They are taken off with the closing quote.
#[inline(always)]
pub(crate) fn take_plain<'t>(cursor: &mut Cursor<'t>) -> Option<&'t str>
    ensures { IfSome result (λ text. IsClosed 34 cursor.old (chars text.now) cursor.new) }
{
    let text = cursor.take_run(Run::Quoted('"'));
    if cursor.take_this('"') {
        return Some(text);
    }
    None
}

/// Reads what stands after an opening quote into the buffer, and takes it off up to the closing
/// quote or the `\` that begins no escape.
pub(crate) fn read_quoted<'t>(
    cursor: &mut Cursor<'t>,
    buffer: &mut Buffer<'t>,
    quote: char,
) -> Result<Quoted, AllocError>
    requires { quote < 128 }
    ensures { IfOk result (λ quoted. IsQuoted quote cursor.old quoted cursor.new buffer.new) }
{
    buffer.set(cursor.take_run(Run::Quoted(quote)));
    loop {
        let mut ahead = cursor.again();
        let Some(c) = ahead.take() else {
            return Ok(Quoted::Ends);
        };
        if c == quote {
            *cursor = ahead;
            return Ok(Quoted::Closed);
        }
        match read_escape(&mut ahead) {
            Escape::Means(meant) => {
                let run = ahead.take_run(Run::Quoted(quote));
                buffer.push(meant, run)?;
                *cursor = ahead;
            }
            Escape::Breaks => return Ok(Quoted::Breaks),
            Escape::Ends => return Ok(Quoted::Ends),
        }
    }
}

// What stands after a `\`.
#[derive(Clone, Copy)]
enum Escape {
    // What means this character.
    Means(char),
    // No escape.
    Breaks,
    // The end of the text, where an escape could go on.
    Ends,
}

// Takes what stands after a `\` off.
fn read_escape(cursor: &mut Cursor<'_>) -> Escape
    ensures { IsEscape cursor.old result cursor.new }
{
    let Some(first) = cursor.take() else {
        return Escape::Ends;
    };
    if first.is_ascii_digit() {
        return read_code(cursor, first);
    }
    match meant(first) {
        Some(c) => Escape::Means(c),
        None => Escape::Breaks,
    }
}

// The character that a letter after a `\` stands for, if it is one of an escape.
fn meant(letter: char) -> Option<char>
    ensures { IsMeant letter result }
{
    match letter {
        'n' => Some('\n'),
        'r' => Some('\r'),
        't' => Some('\t'),
        '\\' => Some('\\'),
        '\'' => Some('\''),
        '"' => Some('"'),
        _ => None,
    }
}

// Takes a code off, of which the first digit was taken off before.
fn read_code(cursor: &mut Cursor<'_>, first: char) -> Escape
    requires { is_ascii_digit first ≡ true }
    ensures { IsEscape (first ∷ cursor.old) result cursor.new }
{
    let Some(c) = code(cursor, first) else {
        return Escape::Breaks;
    };
    match cursor.take() {
        Some(';') => Escape::Means(c),
        Some(_) => Escape::Breaks,
        None => Escape::Ends,
    }
}

// The character that digits stand for, if they are 7 at most and their value is that of a
// character. The first digit was taken off before.
fn code(cursor: &mut Cursor<'_>, first: char) -> Option<char>
    requires { is_ascii_digit first ≡ true }
    ensures value { let digits = first_digits (first ∷ cursor.old) in
        SomeIff result ((length digits ≤ 7) × IsScalar (decimal_value digits))
        (decimal_value digits) }
    ensures rest { MatchOption result Unit (λ c. cursor.new ≡ after_digits (first ∷ cursor.old)) }
{
    let mut value = digit(first);
    let mut count: u32 = 1;
    while let Some(c) = cursor.take_digit() {
        value = value * 10 + digit(c);
        count += 1;
        if count > 7 || value > 0x10FFFF {
            return None;
        }
    }
    char::from_u32(value)
}
