ghost use Rattle.std.specs.Prelude.{◌≡◌, ◌<◌, ◌-◌, ◌^◌, ◌∷◌, ◌||◌, ◌==◌, true, IfSome};
ghost use Rattle.std.specs.Prelude.{MatchOption};
ghost use Rattle.std.specs.Char.{is_ascii_digit, is_ascii_hexdigit};
ghost use Rattle.cd_syntax.specs.Digits.{decimal_value, hexadecimal_value};
ghost use Rattle.cd_syntax.specs.Digits.{with_hexadecimal as with_hexadecimal_of};
ghost use Rattle.cd_syntax.specs.Digits.{hexadecimal_digit as hexadecimal_digit_of};
ghost use Rattle.cd_syntax.specs.Numerals.{begins_number as begins_number_of};
ghost use Rattle.cd_lex.specs.Inner.Prefixes.{first_digits, after_digits};
ghost use Rattle.cd_lex.specs.Inner.Number.{number_after, with_sign, FindsInteger};
ghost use Rattle.cd_lex.specs.Inner.Numerals.{first_hexadecimal, after_hexadecimal};
ghost use Rattle.cd_lex.specs.Inner.Numerals.{number_at, after_number};

use crate::cursor::Cursor;

/// Whether a number without a sign begins with this character, before this text.
pub(crate) fn begins_number(cursor: &Cursor<'_>, first: char) -> bool
    ensures { result ≡ begins_number_of (first ∷ cursor.now) }
{
    first.is_ascii_digit() || (first == '#' && cursor.has_hexadecimal())
}

/// The number at the start of a text, of which the first character was taken off before, with a
/// minus or without, if it fits 128 bits.
pub(crate) fn read_number(cursor: &mut Cursor<'_>, negative: bool, first: char) -> Option<i128>
    requires { begins_number_of (first ∷ cursor.old) ≡ true }
    ensures value { FindsInteger result (with_sign negative (number_at (first ∷ cursor.old))) }
    ensures rest { MatchOption result Unit (λ n. cursor.new ≡ after_number (first ∷ cursor.old)) }
{
    let value = read_unsigned(cursor, first)?;
    signed(negative, value)
}

// The number without its sign. None where it is above 2^127.
fn read_unsigned(cursor: &mut Cursor<'_>, first: char) -> Option<u128>
    requires { begins_number_of (first ∷ cursor.old) ≡ true }
    ensures value { MatchOption result (2 ^ 127 < number_at (first ∷ cursor.old))
        (λ n. n ≡ number_at (first ∷ cursor.old)) }
    ensures rest { MatchOption result Unit (λ n. cursor.new ≡ after_number (first ∷ cursor.old)) }
{
    if first == '#' {
        return read_hexadecimal(cursor);
    }
    read_digits(cursor, first)
}

// The number of the hexadecimal digits at the start of a text, and of the `_` between them. None
// where it is above 2^127.
fn read_hexadecimal(cursor: &mut Cursor<'_>) -> Option<u128>
    ensures value { MatchOption result
        (2 ^ 127 < hexadecimal_value (first_hexadecimal cursor.old))
        (λ n. n ≡ hexadecimal_value (first_hexadecimal cursor.old)) }
    ensures rest { MatchOption result Unit (λ n. cursor.new ≡ after_hexadecimal cursor.old) }
{
    let mut value = 0;
    while let Some(c) = cursor.take_hexadecimal() {
        value = with_hexadecimal(value, c)?;
    }
    Some(value)
}

// The number with one character more: a `_` is passed over. None where it is above 2^127.
fn with_hexadecimal(before: u128, c: char) -> Option<u128>
    requires { ((c == 95) || is_ascii_hexdigit c) ≡ true }
    ensures { MatchOption result (2 ^ 127 < with_hexadecimal_of before c)
        (λ n. n ≡ with_hexadecimal_of before c) }
{
    if c == '_' {
        return Some(before);
    }
    if before > 10633823966279326983230456482242756608 {
        return None;
    }
    Some(before * 16 + u128::from(hexadecimal_digit(c)))
}

// What a hexadecimal digit adds to a number.
fn hexadecimal_digit(c: char) -> u32
    requires { is_ascii_hexdigit c ≡ true }
    ensures value { result ≡ hexadecimal_digit_of c }
    ensures small { result < 16 }
{
    match c {
        '0'..='9' => c as u32 - '0' as u32,
        'A'..='F' => c as u32 - 'A' as u32 + 10,
        _ => c as u32 - 'a' as u32 + 10,
    }
}

// The number of the digits at the start of a text, of which the first was taken off before. None
// where it is above 2^127.
fn read_digits(cursor: &mut Cursor<'_>, first: char) -> Option<u128>
    requires { is_ascii_digit first ≡ true }
    ensures value { MatchOption result
        (2 ^ 127 < decimal_value (first_digits (first ∷ cursor.old)))
        (λ n. n ≡ decimal_value (first_digits (first ∷ cursor.old))) }
    ensures rest { MatchOption result Unit (λ n. cursor.new ≡ after_digits (first ∷ cursor.old)) }
{
    let mut ahead = cursor.again();
    if let Some(value) = take_small(&mut ahead, first) {
        *cursor = ahead;
        return Some(u128::from(value));
    }
    read_more_digits(cursor, u128::from(digit(first)))
}

/// The number of the digits at the start of a text, of which the first was taken off before, if
/// they are few.
#[inline(always)]
pub(crate) fn take_small(cursor: &mut Cursor<'_>, first: char) -> Option<u64>
    requires { is_ascii_digit first ≡ true }
    ensures { IfSome result (λ n. (n ≡ decimal_value (first_digits (first ∷ cursor.old)))
        × (cursor.new ≡ after_digits (first ∷ cursor.old)) × (n < 2 ^ 64)) }
{
    let mut value = u64::from(digit(first));
    while value < 100_000_000_000_000_000 {
        match cursor.take_digit() {
            Some(c) => value = value * 10 + u64::from(digit(c)),
            None => return Some(value),
        }
    }
    None
}

// The same from the value of the digits before.
fn read_more_digits(cursor: &mut Cursor<'_>, before: u128) -> Option<u128>
    ensures value { MatchOption result (2 ^ 127 < number_after before (first_digits cursor.old))
        (λ n. n ≡ number_after before (first_digits cursor.old)) }
    ensures rest { MatchOption result Unit (λ n. cursor.new ≡ after_digits cursor.old) }
{
    let mut value = before;
    while let Some(c) = cursor.take_digit() {
        if value > 17014118346046923173168730371588410572 {
            return None;
        }
        value = value * 10 + u128::from(digit(c));
    }
    Some(value)
}

/// What a digit adds to a number.
pub(crate) fn digit(c: char) -> u32
    requires { is_ascii_digit c ≡ true }
    ensures value { result ≡ c - 48 }
    ensures small { result < 10 }
{
    c as u32 - '0' as u32
}

// The number with a minus or without, if it fits 128 bits.
fn signed(negative: bool, value: u128) -> Option<i128>
    ensures { FindsInteger result (with_sign negative value) }
{
    if negative {
        return negated(value);
    }
    i128::try_from(value).ok()
}

// The number with a minus, if it fits 128 bits.
fn negated(value: u128) -> Option<i128>
    ensures { FindsInteger result (with_sign true value) }
{
    if value == 0 {
        return Some(0);
    }
    if value > 170141183460469231731687303715884105728 {
        return None;
    }
    Some(-1 - (value - 1) as i128)
}
