ghost use Rattle.std.specs.Prelude.{◌≡◌, Some, IfOk, refl};
ghost use Rattle.std.specs.Cmp.{partial_equiv_from_equiv};
ghost use Rattle.cd_sets.specs.Asking.{same_question, question_cmp, question_input};
ghost use Rattle.cd_sets.specs.Asking.{questions_equiv, questions_partial, questions_total};
ghost use Rattle.cd_sets.specs.Asking.{questions_tie, questions_alike};

use crate::id_set::IdSet;
use std::alloc::AllocError;
use std::cmp::Ordering;
use std::hash::{Hash, Hasher};
use std::marker::Model;

/// A question: is there an element in each node of `pos` and in none of `neg`?
#[derive(Drop)]
pub struct Question {
    /// The nodes that the element is to be in.
    pub pos: IdSet,
    /// The nodes that it is to be outside.
    pub neg: IdSet,
}

impl Question {
    /// An equal question.
    pub fn copy(&self) -> Result<Question, AllocError>
        ensures { IfOk result (λ question. question ≡ self.now) }
    {
        Ok(Question {
            pos: self.pos.copy()?,
            neg: self.neg.copy()?,
        })
    }
}

impl PartialEq for Question {
    ghost eq = { same_question };

    ghost laws = { partial_equiv_from_equiv questions_equiv };

    fn eq(&self, other: &Question) -> bool {
        self.pos == other.pos && self.neg == other.neg
    }
}

impl Eq for Question {
    ghost laws = { questions_equiv };
}

impl PartialOrd for Question {
    ghost partial_cmp = { λ question other. Some (question_cmp question other) };

    ghost laws = { questions_partial };

    fn partial_cmp(&self, other: &Question) -> Option<Ordering> {
        Some(self.cmp(other))
    }
}

impl Ord for Question {
    ghost cmp = { question_cmp };

    ghost total = { questions_total };

    ghost matches_partial_cmp = { λ question other. refl };

    ghost matches_eq = { questions_tie };

    fn cmp(&self, other: &Question) -> Ordering {
        self.pos.cmp(&other.pos).then(self.neg.cmp(&other.neg))
    }
}

impl Hash for Question {
    ghost hash_input = { question_input };

    ghost respects_eq = { questions_alike.fed };

    fn hash<H: Hasher>(&self, state: &mut H) {
        self.pos.hash(state);
        self.neg.hash(state);
    }
}

/// A list of questions, which a contract sees as the list.
#[derive(Drop)]
pub struct Questions {
    items: Vec<Question>,
}

impl Model for Questions {
    ghost use Rattle.std.specs.Prelude.{List};
    ghost use Rattle.cd_sets.specs.declared.question.Question.{Question as AQuestion};

    ghost Value = { List AQuestion };

    ghost view = { λ questions. questions.items.items };
}

impl Questions {
    /// These questions.
    pub fn of(items: Vec<Question>) -> Questions
        ensures { result ≡ items.items }
    {
        Questions { items }
    }

    /// The questions, in their order.
    pub fn items(&self) -> &[Question]
        ensures { result.now ≡ self.now }
    {
        self.items.as_slice()
    }

    /// An equal list.
    pub fn copy(&self) -> Result<Questions, AllocError>
        ensures { IfOk result (λ questions. questions ≡ self.now) }
    {
        let mut items = Vec::new(*self.items.allocator());
        for question in self.items.iter() {
            items.push(question.copy()?)?;
        }
        Ok(Questions { items })
    }
}
