ghost use Rattle.std.specs.Prelude.{◌≡◌, ◌∷◌, ◌++◌, ◌⊎◌, ℕ, List, [], Some, length, take};
ghost use Rattle.std.specs.Prelude.{slice_get, option_copied, IfOk, OnErr, MatchOption};
ghost use Rattle.cd_sets.specs.declared.question.Question.{Question as AQuestion};

use crate::hasher::WordHasher;
use cd_sets::question::Question;
use indexmap::IndexSet;
use std::alloc::{AllocError, Global};
use std::hash::BuildHasherDefault;
use std::marker::Model;

/// The number of a question.
#[derive(Clone, Copy)]
pub struct QuestionId(pub usize);

/// Questions, each once, under the numbers of their places. A contract sees them in a list.
#[derive(Drop)]
pub struct Asked {
    questions: IndexSet<Question, BuildHasherDefault<WordHasher>>,
}

impl Model for Asked {
    ghost use Rattle.std.specs.Prelude.{List};
    ghost use Rattle.cd_sets.specs.declared.question.Question.{Question as AQuestion};

    ghost Value = { List AQuestion };

    ghost view = { λ asked. asked.questions.keys };
}

impl Asked {
    /// No questions.
    pub fn new(alloc: Global) -> Asked
        ensures { result ≡ [] }
    {
        Asked {
            questions: IndexSet::with_hasher(alloc, BuildHasherDefault::new()),
        }
    }

    /// The number of a question, which is added as the last one if it is not there. Where memory
    /// runs out none is added.
    pub fn number(&mut self, question: Question) -> Result<QuestionId, AllocError>
        ensures found { IfOk result (λ id. slice_get self.new id.0 ≡ Some question) }
        ensures grows { (self.new ≡ self.old) ⊎ (self.new ≡ self.old ++ question ∷ []) }
        ensures kept { OnErr result (self.new ≡ self.old) }
    {
        let (number, _) = self.questions.insert_full(question)?;
        Ok(QuestionId(number))
    }

    /// The number of a question, if it is there.
    pub fn find(&self, question: &Question) -> Option<QuestionId>
        ensures { MatchOption result
            ((number : ℕ) → slice_get self.now number ≡ Some question.now → ⊥)
            (λ id. slice_get self.now id.0 ≡ Some question.now) }
    {
        let number = self.questions.get_index_of(question)?;
        Some(QuestionId(number))
    }

    /// The question of a number.
    pub fn get(&self, id: QuestionId) -> Option<&Question>
        ensures { option_copied result ≡ slice_get self.now id.0 }
    {
        self.questions.get_index(id.0)
    }

    /// How many questions there are.
    pub fn len(&self) -> usize
        ensures count { result ≡ length self.now }
        ensures once { (first second : ℕ) (question : AQuestion)
            → slice_get self.now first ≡ Some question
            → slice_get self.now second ≡ Some question → first ≡ second }
    {
        self.questions.len()
    }

    /// Keeps the first questions, so many, alone.
    pub fn truncate(&mut self, len: usize)
        ensures { self.new ≡ take len self.old }
    {
        self.questions.truncate(len);
    }
}
