//! Questions under numbers.
ghost use Rattle.std.specs.Prelude.{◌≡◌, ◌∷◌, ◌++◌, ◌⊎◌, [], Some, slice_get};
ghost use Rattle.std.specs.Prelude.{option_copied, IfOk};

use cd_sets::question::Question;
use indexmap::IndexSet;
use std::alloc::{AllocError, Global};
use std::marker::Model;

/// Questions, each once, under the numbers of their order. A contract sees them in a list.
#[derive(Drop)]
pub(crate) struct Numbered {
    questions: IndexSet<Question>,
}

impl Model for Numbered {
    ghost use Rattle.std.specs.Prelude.{List};
    ghost use Rattle.cd_sets.specs.declared.question.Question.{Question as AQuestion};

    ghost Value = { List AQuestion };

    ghost view = { λ numbered. numbered.questions.keys };
}

impl Numbered {
    /// No questions.
    pub(crate) fn new(alloc: Global) -> Numbered
        ensures { result ≡ [] }
    {
        Numbered {
            questions: IndexSet::new(alloc),
        }
    }

    /// The number of a question, which is added as the last one if it is not there.
    pub(crate) fn number(&mut self, question: Question) -> Result<usize, AllocError>
        ensures found { IfOk result (λ number. slice_get self.new number ≡ Some question) }
        ensures grows { (self.new ≡ self.old) ⊎ (self.new ≡ self.old ++ question ∷ []) }
    {
        let (number, _) = self.questions.insert_full(question)?;
        Ok(number)
    }

    /// The question of a number.
    pub(crate) fn get(&self, number: usize) -> Option<&Question>
        ensures { option_copied result ≡ slice_get self.now number }
    {
        self.questions.get_index(number)
    }

    /// All questions.
    pub(crate) fn items(&self) -> &[Question]
        ensures { result.now ≡ self.now }
    {
        self.questions.as_slice()
    }
}
