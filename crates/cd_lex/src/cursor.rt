ghost use Rattle.std.specs.Prelude.{◌≡◌, ◌<◌, ◌∷◌, [], true, false, MatchOption, MatchBool};
ghost use Rattle.std.specs.Prelude.{take_while};
ghost use Rattle.std.specs.Str.{chars};
ghost use Rattle.std.specs.Char.{is_ascii_digit};
ghost use Rattle.cd_syntax.specs.Digits.{BeginsWithNoDigit, begins_hexadecimal, goes_on_number};
ghost use Rattle.cd_syntax.specs.Tokens.{bytes as bytes_of};
ghost use Rattle.cd_lex.specs.Inner.Prefixes.{BeginsWithOther, after};
ghost use Rattle.cd_lex.specs.Inner.Runs.{belongs, HasAsciiQuote, EndsRun};

use crate::run::Run;
use std::marker::Model;

/// What is left of a text. A contract sees it as the list of its characters.
#[derive(Drop)]
pub(crate) struct Cursor<'t> {
    rest: &'t str,
}

impl<'t> Model for Cursor<'t> {
    ghost use Rattle.std.specs.Prelude.{List, ℕ};
    ghost use Rattle.std.specs.Str.{chars};

    ghost Value = { List ℕ };

    ghost view = { λ cursor. chars cursor.rest.now };
}

impl<'t> Cursor<'t> {
    /// The start of a text.
    pub(crate) fn new(text: &'t str) -> Cursor<'t>
        ensures { result ≡ chars text.now }
    {
        Cursor { rest: text }
    }

    /// The same place.
    #[inline(always)]
    pub(crate) fn again(&self) -> Cursor<'t>
        ensures { result ≡ self.now }
    {
        Cursor { rest: self.rest }
    }

    /// How many bytes are left.
    pub(crate) fn bytes(&self) -> usize
        ensures { result ≡ bytes_of self.now }
    {
        bytes_left(self.rest)
    }

    /// The next character, which is taken off.
    #[inline(always)]
    pub(crate) fn take(&mut self) -> Option<char>
        ensures { MatchOption result (self.old ≡ []) (λ c. self.old ≡ c ∷ self.new) }
    {
        let (found, rest) = first(self.rest);
        self.rest = rest;
        found
    }

    /// Takes this character off, which is ASCII, if it is the next one.
    #[inline(always)]
    pub(crate) fn take_this(&mut self, c: char) -> bool
        requires { c < 128 }
        ensures { MatchBool result (self.old ≡ c ∷ self.new)
            ((self.new ≡ self.old) × BeginsWithOther c self.old) }
    {
        match without(self.rest, c) {
            Some(rest) => {
                self.rest = rest;
                true
            }
            None => false,
        }
    }

    /// The next character, which is taken off, if it is a digit.
    #[inline(always)]
    pub(crate) fn take_digit(&mut self) -> Option<char>
        ensures { MatchOption result ((self.new ≡ self.old) × BeginsWithNoDigit self.old)
            (λ c. (self.old ≡ c ∷ self.new) × (is_ascii_digit c ≡ true)) }
    {
        let (found, rest) = first(self.rest);
        match found {
            Some(c) if c.is_ascii_digit() => {
                self.rest = rest;
                Some(c)
            }
            _ => None,
        }
    }

    /// Whether a hexadecimal digit is the next character.
    pub(crate) fn has_hexadecimal(&self) -> bool
        ensures { result ≡ begins_hexadecimal self.now }
    {
        match self.again().take() {
            Some(c) => c.is_ascii_hexdigit(),
            None => false,
        }
    }

    /// The next character, which is taken off, if a hexadecimal number goes on with it after a
    /// digit: a digit, or a `_` that stands before one.
    pub(crate) fn take_hexadecimal(&mut self) -> Option<char>
        ensures { MatchOption result ((self.new ≡ self.old) × (goes_on_number self.old ≡ false))
            (λ c. (self.old ≡ c ∷ self.new) × (goes_on_number (c ∷ self.new) ≡ true)) }
    {
        let mut ahead = self.again();
        match ahead.take() {
            Some(c) if c.is_ascii_hexdigit() || (c == '_' && ahead.has_hexadecimal()) => {
                self.rest = ahead.rest;
                Some(c)
            }
            _ => None,
        }
    }

    /// The characters at the start that belong to a run, which are taken off.
    #[inline(always)]
    pub(crate) fn take_run(&mut self, run: Run) -> &'t str
        requires { HasAsciiQuote run }
        ensures run { chars result.now ≡ take_while (belongs run) self.old }
        ensures rest { self.new ≡ after (belongs run) self.old }
        ensures ends { EndsRun run self.new }
    {
        let (prefix, rest) = split(self.rest, run);
        self.rest = rest;
        prefix
    }
}

// The first character of a text, and the rest.
#[inline(always)]
fn first<'t>(text: &'t str) -> (Option<char>, &'t str)
    ensures { MatchOption result.0 (chars text.now ≡ [])
        (λ c. chars text.now ≡ c ∷ chars result.1.now) }
{
    let mut left = text.chars();
    let found = left.next();
    (found, left.as_str())
}

// The text without this character, which is ASCII, at its start, if it stands there.
#[inline(always)]
fn without<'t>(text: &'t str, c: char) -> Option<&'t str>
    requires { c < 128 }
    ensures { MatchOption result (BeginsWithOther c (chars text.now))
        (λ rest. chars text.now ≡ c ∷ chars rest.now) }
{
    match text.as_bytes() {
        [] => None,
        [first, ..] => {
            if *first as char != c {
                return None;
            }
            Some(text.split_at(1).1)
        }
    }
}

// The characters at the start of a text that belong to a run, and the rest.
#[inline(always)]
fn split<'t>(text: &'t str, run: Run) -> (&'t str, &'t str)
    requires { HasAsciiQuote run }
    ensures prefix { chars result.0.now ≡ take_while (belongs run) (chars text.now) }
    ensures rest { chars result.1.now ≡ after (belongs run) (chars text.now) }
{
    text.split_at(run.length(text.as_bytes()))
}

// How many bytes a text has.
fn bytes_left(text: &str) -> usize
    ensures { result ≡ bytes_of (chars text.now) }
{
    text.len()
}
