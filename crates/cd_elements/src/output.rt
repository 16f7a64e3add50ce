//! A text to which characters are added.
ghost use Rattle.std.specs.Prelude.{◌≡◌, ◌<◌, [], ◌∷◌, ◌++◌, length, OnOk, IfOk};
ghost use Rattle.std.specs.Prelude.{string_bytes, encode_utf8_all};
ghost use Rattle.std.specs.Fmt.{signed_decimal};
ghost use Rattle.std.specs.Str.{chars};

use cd_syntax::name::Name;
use std::alloc::{AllocError, Global};
use std::marker::Model;

/// A text to which characters are added at the end. A contract sees the list of its characters.
#[derive(Drop)]
pub struct Output {
    text: String,
}

impl Model for Output {
    ghost use Rattle.std.specs.Prelude.{ℕ, List, string_bytes};
    ghost use Rattle.std.specs.Str.{chars};

    ghost Value = { List ℕ };

    ghost view = { λ output. chars (string_bytes output.text) };
}

impl Output {
    /// The text without characters.
    pub fn new(alloc: Global) -> Output
        ensures { result ≡ [] }
    {
        Output {
            text: String::new(alloc),
        }
    }

    /// Adds a character.
    ///
    /// # Errors
    ///
    /// Want of memory.
    pub fn push(&mut self, c: char) -> Result<(), AllocError>
        ensures { OnOk result (self.new ≡ self.old ++ c ∷ []) }
    {
        self.text.push(c)
    }

    /// Adds two characters.
    ///
    /// # Errors
    ///
    /// Want of memory.
    pub fn push_two(&mut self, first: char, second: char) -> Result<(), AllocError>
        ensures { OnOk result (self.new ≡ self.old ++ first ∷ second ∷ []) }
    {
        self.push(first)?;
        self.push(second)
    }

    /// Adds a text.
    ///
    /// # Errors
    ///
    /// Want of memory.
    pub fn push_str(&mut self, text: &str) -> Result<(), AllocError>
        ensures { OnOk result (self.new ≡ self.old ++ chars text.now) }
    {
        self.text.push_str(text)
    }

    /// Adds a number in decimal.
    ///
    /// # Errors
    ///
    /// Want of memory.
    pub fn push_number(&mut self, number: i128) -> Result<(), AllocError>
        ensures text { OnOk result (self.new ≡ self.old ++ signed_decimal number) }
        ensures longer { OnOk result (length self.old < length self.new) }
    {
        write!(self.text, "{number}")
    }

    /// The text.
    pub fn into_text(self) -> String
        ensures { string_bytes result ≡ encode_utf8_all self }
    {
        self.text
    }

    /// The text as a name.
    pub(crate) fn name(&self) -> Result<Name, AllocError>
        ensures { IfOk result (λ name. name ≡ self.now) }
    {
        Name::of(*self.text.allocator(), self.text.as_str())
    }
}
