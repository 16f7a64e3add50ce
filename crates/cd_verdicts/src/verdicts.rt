ghost use Rattle.std.specs.Prelude.{◌≡◌, ◌++◌, ◌∷◌, [], List, Some, None, length, map, slice_get};
ghost use Rattle.std.specs.Prelude.{take};
ghost use Rattle.std.specs.Prelude.{OnOk, OnErr, MatchOption};
ghost use Rattle.cd_sets.specs.declared.question.Question.{Question as AQuestion};
ghost use Rattle.cd_rules.specs.Machine.{NotIn};
ghost use Rattle.cd_rules.specs.Right.{Differ};
ghost use Rattle.cd_verdicts.specs.declared.verdict.Verdict.{Verdict as AVerdict};
ghost use Rattle.cd_verdicts.specs.declared.verdict.Verdict.TheVariants.{Empty, Inhabited};
ghost use Rattle.cd_verdicts.specs.Verdicts.{IsKept, family, without_elements};

use crate::asked::{Asked, QuestionId};
use crate::hasher::WordHasher;
use crate::verdict::Verdict;
use cd_elements::ElementId;
use cd_sets::question::Question;
use indexmap::IndexMap;
use std::alloc::{AllocError, Global};
use std::hash::BuildHasherDefault;
use std::marker::Model;

/// Verdicts on questions, one for each, and the questions among these that have no element, once
/// more in a list of their own. A contract sees the verdicts in a list.
#[derive(Drop)]
pub struct Verdicts {
    verdicts: IndexMap<Question, Verdict, BuildHasherDefault<WordHasher>>,
    family: Vec<Question>,
}

impl Model for Verdicts {
    ghost use Rattle.std.specs.Prelude.{◌≡◌, List};
    ghost use Rattle.cd_sets.specs.declared.question.Question.{Question as AQuestion};
    ghost use Rattle.cd_verdicts.specs.declared.verdict.Verdict.{Verdict as AVerdict};
    ghost use Rattle.cd_verdicts.specs.Verdicts.{family as family_in};

    ghost Value = { List (AQuestion × AVerdict) };

    ghost view = { λ verdicts. verdicts.verdicts.entries };

    ghost invariant = { λ verdicts. verdicts.family.items ≡ family_in verdicts.verdicts.entries };
}

impl Verdicts {
    /// None.
    pub fn new(alloc: Global) -> Verdicts
        ensures { result ≡ [] }
    {
        Verdicts {
            verdicts: IndexMap::with_hasher(alloc, BuildHasherDefault::new()),
            family: Vec::new(alloc),
        }
    }

    /// The verdict on a question, if there is one.
    pub fn get(&self, question: &Question) -> Option<Verdict>
        ensures { MatchOption result (NotIn (map (λ one. one.0) self.now) question.now)
            (λ verdict. IsKept self.now question.now verdict) }
    {
        self.verdicts.get(question).copied()
    }

    /// Adds an element of a question that has no verdict. Where memory runs out nothing is added.
    pub fn add_element(&mut self, question: Question, id: ElementId) -> Result<(), AllocError>
        requires { NotIn (map (λ one. one.0) self.old) question }
        ensures added { OnOk result (self.new ≡ self.old ++ (question, Inhabited id) ∷ []) }
        ensures kept { OnErr result (self.new ≡ self.old) }
    {
        self.verdicts.insert(question, Verdict::Inhabited(id))?;
        Ok(())
    }

    /// Adds that questions have no element, of which none has a verdict. Where memory runs out
    /// nothing is added.
    pub fn settle(&mut self, questions: &Asked) -> Result<(), AllocError>
        requires { Differ (map (λ one. one.0) self.old ++ questions.now) }
        ensures settled { OnOk result (self.new ≡ self.old ++ without_elements questions.now) }
        ensures kept { OnErr result (self.new ≡ self.old) }
    {
        let before = self.len();
        let family_before = self.family().len();
        match self.settle_each(questions) {
            Ok(()) => Ok(()),
            Err(error) => {
                self.take_back(before, family_before);
                Err(error)
            }
        }
    }

    // The same, but that some of them stay added where memory runs out.
    fn settle_each(&mut self, questions: &Asked) -> Result<(), AllocError>
        requires { Differ (map (λ one. one.0) self.old ++ questions.now) }
        ensures settled { OnOk result (self.new ≡ self.old ++ without_elements questions.now) }
        ensures begins { take (length self.old) self.new ≡ self.old }
    {
        for place in 0..questions.len() {
            if let Some(question) = questions.get(QuestionId(place)) {
                self.add_empty(question.copy()?)?;
            }
        }
        Ok(())
    }

    // Adds that a question that has no verdict has no element. Where memory runs out nothing is
    // added.
    fn add_empty(&mut self, question: Question) -> Result<(), AllocError>
        requires { NotIn (map (λ one. one.0) self.old) question }
        ensures added { OnOk result (self.new ≡ self.old ++ (question, Empty) ∷ []) }
        ensures kept { OnErr result (self.new ≡ self.old) }
    {
        let before = self.family.len();
        self.family.push(question.copy()?)?;
        match self.verdicts.insert(question, Verdict::Empty) {
            Ok(_) => Ok(()),
            Err(_) => {
                self.family.truncate(before);
                Err(AllocError)
            }
        }
    }

    // Keeps the first verdicts, so many, alone, among which so many questions have no element.
    fn take_back(&mut self, len: usize, family_len: usize)
        requires { family (take len self.old) ≡ take family_len (family self.old) }
        ensures { self.new ≡ take len self.old }
    {
        self.verdicts.truncate(len);
        self.family.truncate(family_len);
    }

    /// The question at a place, and the verdict on it.
    pub fn at(&self, place: usize) -> Option<(&Question, Verdict)>
        ensures { MatchOption result (slice_get self.now place ≡ None)
            (λ one. slice_get self.now place ≡ Some (one.0.now, one.1)) }
    {
        let (question, verdict) = self.verdicts.get_index(place)?;
        Some((question, *verdict))
    }

    /// The questions that have no element, in the order of their verdicts.
    pub fn family(&self) -> &[Question]
        ensures { result.now ≡ family self.now }
    {
        self.family.as_slice()
    }

    /// How many verdicts there are: one for each question.
    pub fn len(&self) -> usize
        ensures count { result ≡ length self.now }
        ensures once { Differ (map (λ one. one.0) self.now) }
        ensures verdicts { (question : AQuestion) (one other : AVerdict)
            → IsKept self.now question one → IsKept self.now question other → one ≡ other }
    {
        self.verdicts.len()
    }

    /// What the verdicts take their memory from.
    pub fn allocator(&self) -> Global {
        *self.verdicts.allocator()
    }
}
