ghost use Rattle.std.specs.Prelude.{◌≡◌, IfOk, string_bytes, bytes_eq};
ghost use Rattle.std.specs.Str.{chars};
ghost use Rattle.std.specs.Cmp.{partial_equiv_from_equiv};
ghost use Rattle.cd_syntax.specs.Name.{first, only, is_type_name as is_type_name_of};
ghost use Rattle.cd_syntax.specs.ComparingNames.{name_input, names_equiv, names_alike};

use std::alloc::{AllocError, Global};
use std::hash::{Hash, Hasher};
use std::marker::Model;

/// A text, which a contract sees as the list of its characters: a word, a label, the name of an
/// atom, or what stands between quotes.
#[derive(Debug, Drop)]
pub struct Name {
    text: String,
}

impl Model for Name {
    ghost use Rattle.std.specs.Prelude.{ℕ, List, string_bytes};
    ghost use Rattle.std.specs.Str.{chars};

    ghost Value = { List ℕ };

    ghost view = { λ name. chars (string_bytes name.text) };
}

impl Name {
    /// The name with this text.
    pub fn of(alloc: Global, text: &str) -> Result<Name, AllocError>
        ensures { IfOk result (λ name. name ≡ chars text.now) }
    {
        Ok(Name {
            text: String::from_str(alloc, text)?,
        })
    }

    /// The name with these characters.
    pub fn of_characters(alloc: Global, characters: &[char]) -> Result<Name, AllocError>
        ensures { IfOk result (λ name. name ≡ characters.now) }
    {
        let mut text = String::new(alloc);
        for c in characters {
            text.push(*c)?;
        }
        Ok(Name { text })
    }

    /// Its text.
    pub fn as_str(&self) -> &str
        ensures { chars result.now ≡ self.now }
    {
        self.text.as_str()
    }

    /// Whether these are its characters.
    pub fn is_spelled(&self, characters: &[char]) -> bool
        ensures { result ≡ bytes_eq self.now characters.now }
    {
        let mut rest = characters;
        for c in self.text.chars() {
            match rest {
                [first, after @ ..] if *first == c => rest = after,
                _ => return false,
            }
        }
        rest.is_empty()
    }

    /// Its first character, if it has one.
    pub fn first_character(&self) -> Option<char>
        ensures { result ≡ first self.now }
    {
        self.text.chars().next()
    }

    /// Its one character, if it has just one.
    pub fn only_character(&self) -> Option<char>
        ensures { result ≡ only self.now }
    {
        let first = self.first_character()?;
        if self.is_spelled(&[first]) {
            return Some(first);
        }
        None
    }

    /// Whether a type may have this name, where none is built in under it: it begins with A to Z.
    pub fn is_type_name(&self) -> bool
        ensures { result ≡ is_type_name_of self.now }
    {
        self.first_character()
            .is_some_and(|c| c.is_ascii_uppercase())
    }

    /// An equal name.
    pub fn copy(&self) -> Result<Name, AllocError>
        ensures { IfOk result (λ name. name ≡ self.now) }
    {
        Name::of(*self.text.allocator(), self.as_str())
    }
}

impl PartialEq for Name {
    ghost eq = { bytes_eq };

    ghost laws = { partial_equiv_from_equiv names_equiv };

    fn eq(&self, other: &Name) -> bool {
        self.as_str() == other.as_str()
    }
}

impl Eq for Name {
    ghost laws = { names_equiv };
}

impl Hash for Name {
    ghost hash_input = { name_input };

    ghost respects_eq = { names_alike.fed };

    fn hash<H: Hasher>(&self, state: &mut H) {
        self.as_str().hash(state);
    }
}
