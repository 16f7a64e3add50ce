//! Integers that texts spell.
ghost use Rattle.std.specs.Prelude.{◌≡◌, ◌∷◌, ◌<◌, ◌-◌, ◌^◌, [], pos, neg_ℤ, true, Some, MatchOption};
ghost use Rattle.std.specs.Char.{is_ascii_digit};
ghost use Rattle.std.specs.List.{list_all};
ghost use Rattle.cd_syntax.specs.Digits.{decimal_value};
ghost use Rattle.cd_evaluation.specs.Integers as integers;
ghost use Rattle.cd_evaluation.specs.Integers.{within_range};
ghost use Rattle.cd_operations.specs.Inner.Spelling.{IsMagnitude, are_digits as are_digits_by};

/// The integer that a text spells, if it does and is one of 128 bits.
pub(crate) fn spelled(text: &[char]) -> Option<i128>
    ensures { result ≡ integers.spelled text.now }
{
    let (first, digits) = split(text)?;
    if first == '-' {
        return negated(magnitude(digits)?);
    }
    positive(magnitude(text)?)
}

// The number that digits write, where it is at most 2^127.
fn magnitude(text: &[char]) -> Option<u128>
    ensures { IsMagnitude text.now result }
{
    if are_digits(text) {
        return value_of(text);
    }
    None
}

// Whether there is a digit, and nothing but digits.
#[tactic(auto, using(crate::proofs::DigitsRead::some_digits))]
fn are_digits(text: &[char]) -> bool
    ensures { result ≡ are_digits_by text.now }
{
    match text {
        [] => false,
        [_, ..] => are_all_digits(text),
    }
}

fn are_all_digits(text: &[char]) -> bool
    ensures { result ≡ list_all is_ascii_digit text.now }
{
    text.iter().all(|c| c.is_ascii_digit())
}

// The value of digits. None where it is above 2^127.
fn value_of(text: &[char]) -> Option<u128>
    requires { list_all is_ascii_digit text.now ≡ true }
    ensures { MatchOption result (2 ^ 127 < decimal_value text.now)
        (λ n. n ≡ decimal_value text.now) }
{
    let mut value = 0;
    let mut left = text;
    while let Some((c, rest)) = split(left) {
        if value > 17014118346046923173168730371588410572 {
            return None;
        }
        value = value * 10 + u128::from(digit(c));
        left = rest;
    }
    Some(value)
}

// What a digit adds to a number.
fn digit(c: char) -> u32
    requires { is_ascii_digit c ≡ true }
    ensures value { result ≡ c - 48 }
    ensures small { result < 10 }
{
    c as u32 - '0' as u32
}

// The number, if it is an integer of 128 bits.
fn positive(value: u128) -> Option<i128>
    ensures { result ≡ within_range (Some (pos value)) }
{
    i128::try_from(value).ok()
}

// The number with a minus, if it is an integer of 128 bits.
fn negated(value: u128) -> Option<i128>
    ensures { result ≡ within_range (Some (neg_ℤ (pos value))) }
{
    if value == 0 {
        return Some(0);
    }
    if value > 170141183460469231731687303715884105728 {
        return None;
    }
    Some(-1 - (value - 1) as i128)
}

// The first character, and those after it.
fn split(text: &[char]) -> Option<(char, &[char])>
    ensures { MatchOption result (text.now ≡ []) (λ first. text.now ≡ first.0 ∷ first.1.now) }
{
    match text {
        [] => None,
        [first, rest @ ..] => Some((*first, rest)),
    }
}
