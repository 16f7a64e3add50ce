//! The characters of a text under numbers.
ghost use Rattle.std.specs.Prelude.{◌≡◌, ◌∷◌, ◌++◌, ◌⊎◌, [], Some, map, length, slice_get};
ghost use Rattle.std.specs.Prelude.{option_copied, IfOk};
ghost use Rattle.cd_graph.specs.PlainFormula.{plain};
ghost use Rattle.cd_model.specs.Leaves.{one_character};
ghost use Rattle.cd_forms.specs.Inner.Letters.{AreLetters};

use crate::nodes::node_after;
use cd_builders::character;
use cd_graph::Formula;
use cd_sets::node_id::NodeId;
use indexmap::IndexSet;
use std::alloc::{AllocError, Global};
use std::marker::Model;

/// Characters, each once, under the numbers of their order. A contract sees them in a list.
#[derive(Drop)]
pub(crate) struct Letters {
    characters: IndexSet<char>,
}

impl Model for Letters {
    ghost use Rattle.std.specs.Prelude.{ℕ, List};

    ghost Value = { List ℕ };

    ghost view = { λ letters. letters.characters.keys };
}

impl Letters {
    /// No characters.
    pub(crate) fn new(alloc: Global) -> Letters
        ensures { result ≡ [] }
    {
        Letters {
            characters: IndexSet::new(alloc),
        }
    }

    /// The number of a character, which is added as the last one if it is not there.
    fn number(&mut self, c: char) -> Result<usize, AllocError>
        ensures found { IfOk result (λ number. slice_get self.new number ≡ Some c) }
        ensures grows { (self.new ≡ self.old) ⊎ (self.new ≡ self.old ++ c ∷ []) }
    {
        let (number, _) = self.characters.insert_full(c)?;
        Ok(number)
    }

    /// The nodes of the characters of a text, where those of all letters stand from a number on.
    pub(crate) fn nodes_of(
        &mut self,
        alloc: Global,
        first: usize,
        text: &[char],
    ) -> Result<Vec<NodeId>, AllocError>
        ensures { IfOk result (λ ids. AreLetters first self.new text.now ids.items) }
    {
        let mut ids = Vec::new(alloc);
        for c in text {
            let number = self.number(*c)?;
            ids.push(node_after(first, number)?)?;
        }
        Ok(ids)
    }

    // The character with a number.
    fn get(&self, number: usize) -> Option<&char>
        ensures { option_copied result ≡ slice_get self.now number }
    {
        self.characters.get_index(number)
    }

    /// How many there are.
    pub(crate) fn len(&self) -> usize
        ensures { result ≡ length self.now }
    {
        self.characters.len()
    }

    /// The formulas that hold one of them each.
    pub(crate) fn formulas(&self, alloc: Global) -> Result<Vec<Formula>, AllocError>
        ensures { IfOk result
            (λ formulas. map plain formulas.items ≡ map one_character self.now) }
    {
        let mut formulas = Vec::new(alloc);
        while let Some(c) = self.get(formulas.len()) {
            formulas.push(character(alloc, *c)?)?;
        }
        Ok(formulas)
    }
}
