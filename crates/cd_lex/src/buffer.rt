ghost use Rattle.std.specs.Prelude.{◌≡◌, [], ◌∷◌, ◌++◌, OnOk, string_bytes};
ghost use Rattle.std.specs.Str.{chars};

use std::alloc::{AllocError, Global};
use std::marker::Model;

/// The characters of a token: a part of the text, or a text that was made of it where escapes stand
/// in it. A contract sees them as a list.
#[derive(Drop)]
pub(crate) struct Buffer<'t> {
    part: &'t str,
    made: String,
    is_made: bool,
}

impl<'t> Model for Buffer<'t> {
    ghost use Rattle.std.specs.Prelude.{List, ℕ, string_bytes, if◌then◌else◌};
    ghost use Rattle.std.specs.Str.{chars};

    ghost Value = { List ℕ };

    ghost view = { λ buffer. if buffer.is_made
        then chars (string_bytes buffer.made) else chars buffer.part.now };
}

impl<'t> Buffer<'t> {
    /// No characters.
    pub(crate) fn new(alloc: Global) -> Buffer<'t>
        ensures { result ≡ [] }
    {
        Buffer {
            part: "",
            made: String::new(alloc),
            is_made: false,
        }
    }

    /// Its text.
    pub(crate) fn as_str(&self) -> &str
        ensures { chars result.now ≡ self.now }
    {
        if self.is_made {
            return self.made.as_str();
        }
        self.part
    }

    /// Holds this part of the text alone.
    pub(crate) fn set(&mut self, part: &'t str)
        ensures { self.new ≡ chars part.now }
    {
        self.part = part;
        self.is_made = false;
    }

    /// One character more, and then those of a part of the text.
    pub(crate) fn push(&mut self, c: char, part: &str) -> Result<(), AllocError>
        ensures { OnOk result (self.new ≡ self.old ++ (c ∷ chars part.now)) }
    {
        if self.is_made {
            return append(&mut self.made, c, part);
        }
        self.made.clear();
        self.made.push_str(self.part)?;
        self.is_made = true;
        append(&mut self.made, c, part)
    }
}

fn append(text: &mut String, c: char, part: &str) -> Result<(), AllocError>
    ensures { OnOk result (chars (string_bytes text.new)
        ≡ chars (string_bytes text.old) ++ (c ∷ chars part.now)) }
{
    text.push(c)?;
    text.push_str(part)?;
    Ok(())
}
