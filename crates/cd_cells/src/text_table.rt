//! The names of a table of values, each once.
ghost use Rattle.std.specs.Prelude.{◌≡◌, ◌++◌, [], List, length, IfOk};
ghost use Rattle.std.specs.Str.{chars};
ghost use Rattle.cd_syntax.specs.Name.{Name};
ghost use Rattle.cd_cells.specs.Cells.{name_at, HasEachOnce};

use crate::slots::Slots;
use indexmap::IndexSet;
use std::alloc::{AllocError, Global};
use std::marker::Model;

/// Texts, each once, under the numbers of their places. A contract sees them in a list.
#[derive(Drop)]
pub(crate) struct TextTable {
    texts: IndexSet<String>,
    /// Numbers that were found, each under the key of its text.
    recent: Slots<usize>,
}

impl Model for TextTable {
    ghost use Rattle.std.specs.Prelude.{List, map, string_bytes};
    ghost use Rattle.std.specs.Str.{chars};
    ghost use Rattle.cd_syntax.specs.Name.{Name as AName};

    ghost Value = { List AName };

    ghost view = { λ table. map (λ text. chars (string_bytes text)) table.texts.keys };
}

impl TextTable {
    /// No texts.
    pub(crate) fn new(alloc: Global) -> TextTable
        ensures { result ≡ [] }
    {
        TextTable {
            texts: IndexSet::new(alloc),
            recent: Slots::new(alloc),
        }
    }

    /// The number of a text, which is added as the last one if it is not there.
    pub(crate) fn number(&mut self, text: &str) -> Result<usize, AllocError>
        ensures found { IfOk result (λ number. name_at self.new number ≡ chars text.now) }
        ensures grows { (more : List Name) × (self.new ≡ self.old ++ more) }
    {
        let key = key_of(text);
        if let Some(number) = self.recent.get(key) {
            if self.get(number) == text {
                return Ok(number);
            }
        }
        let number = self.find(text)?;
        let _kept = self.recent.put(key, number);
        Ok(number)
    }

    fn find(&mut self, text: &str) -> Result<usize, AllocError>
        ensures found { IfOk result (λ number. name_at self.new number ≡ chars text.now) }
        ensures grows { (more : List Name) × (self.new ≡ self.old ++ more) }
    {
        if let Some(number) = self.texts.get_index_of(text) {
            return Ok(number);
        }
        let owned = String::from_str(*self.texts.allocator(), text)?;
        let (number, _) = self.texts.insert_full(owned)?;
        Ok(number)
    }

    /// The text of a number, or the empty one where the number has none.
    pub(crate) fn get(&self, number: usize) -> &str
        ensures { chars result.now ≡ name_at self.now number }
    {
        match self.texts.get_index(number) {
            Some(text) => text.as_str(),
            None => "",
        }
    }

    /// How many texts there are. Each has one number.
    pub(crate) fn len(&self) -> usize
        ensures count { result ≡ length self.now }
        ensures once { HasEachOnce self.now }
    {
        self.texts.len()
    }
}

// A number below 256, which tells most pairs of names apart.
fn key_of(text: &str) -> usize {
    match text.as_bytes() {
        [] => 0,
        [only] => usize::from(*only),
        [first, .., last] => {
            let ends = usize::from(*first).wrapping_add(usize::from(*last).wrapping_mul(8));
            ends.wrapping_add(text.len()) % 256
        }
    }
}
