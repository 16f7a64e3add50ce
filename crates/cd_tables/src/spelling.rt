ghost use Rattle.std.specs.Prelude.{◌≡◌, ◌≤◌, ◌==◌, length, [], option_map};
ghost use Rattle.std.specs.List.{list_all};
ghost use Rattle.std.specs.Ordering.{nat_cmp};
ghost use Rattle.std.specs.Cmp.Lexicographic.{slice_cmp};
ghost use Rattle.cd_tables.specs.Spelling.{spelled as spelled_in, is_spelling as is_spelling_of};
ghost use Rattle.cd_tables.specs.Spelling.{is_above as is_above_of};

use std::cmp::Ordering;

/// The bytes that a field spells, which are those before its first 0.
pub(crate) fn spelled(field: &[u8; 16]) -> &[u8]
    ensures bound { length result.now ≤ 16 }
    ensures spelled { result.now ≡ spelled_in field.now }
{
    for (length, byte) in field.iter().enumerate() {
        if *byte == 0 {
            return &field[..length];
        }
    }
    field
}

/// Whether a field has a spelling, and zeros alone after it.
pub(crate) fn is_spelling(field: &[u8; 16]) -> bool
    ensures { result ≡ is_spelling_of field.now }
{
    let length = spelled(field).len();
    length > 0 && has_zeros(&field[length..])
}

// Whether zeros alone are left.
fn has_zeros(rest: &[u8]) -> bool
    ensures { result ≡ list_all (λ byte. byte == 0) rest.now }
{
    rest.iter().all(|byte| *byte == 0)
}

/// Whether what a field spells is above what the field before it spells, if there is one.
pub(crate) fn is_above(before: Option<&[u8; 16]>, field: &[u8; 16]) -> bool
    ensures { result ≡ is_above_of (option_map (λ one. one.now) before.entry) field.now }
{
    match before {
        None => true,
        Some(one) => spelled(one).cmp(spelled(field)).is_lt(),
    }
}

/// How what a field spells compares with a word.
pub(crate) fn compare(field: &[u8; 16], word: &[u8]) -> Ordering
    ensures { result ≡ slice_cmp nat_cmp (spelled_in field.now) word.now }
{
    let mut rest = word;
    for byte in field {
        if *byte == 0 {
            return at_end(rest);
        }
        match rest {
            [] => return Ordering::Greater,
            [first, after @ ..] if byte == first => rest = after,
            [first, ..] => return byte.cmp(first),
        }
    }
    at_end(rest)
}

// How a field that ends compares with what is left of a word.
fn at_end(rest: &[u8]) -> Ordering
    ensures { result ≡ slice_cmp nat_cmp [] rest.now }
{
    match rest {
        [] => Ordering::Equal,
        [_, ..] => Ordering::Less,
    }
}
