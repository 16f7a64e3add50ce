//! The ways of a need, one after the other.
ghost use Rattle.std.specs.Prelude.{◌≡◌, ◌<◌, None, IfOk, OnErr, IsSome, IfSome};
ghost use Rattle.cd_normal.specs.PlainClause.{plain_clause};
ghost use Rattle.cd_tasks.specs.Assignments.{HasWays, all_words, count_needs, members_of, sides_of};
ghost use Rattle.cd_tasks.specs.Assignments.{without_those_from};

use crate::clauses::{count_members, count_sides, share};
use crate::odometer::Odometer;
use crate::way::way_of;
use cd_normal::clause::Clause;
use cd_sets::question::Questions;
use std::alloc::{AllocError, Global};

/// What a step of a walk over ways gave.
#[derive(Drop)]
pub enum Step {
    /// The questions of a word that gives not all members to sides. They subsume those of each way
    /// of a word that begins with it.
    Partial(Questions),
    /// The questions of a way.
    Full(Questions),
    /// No word was left.
    Done,
}

/// A walk over the ways of a need of a clause: the words that give its first members to sides, each
/// before those that begin with it.
#[derive(Drop)]
pub struct Walk<'g> {
    clause: Clause<'g>,
    need: usize,
    words: Odometer,
    ghost counted: { words.members ≡ members_of (plain_clause clause) },
}

impl<'g> Walk<'g> {
    ghost use Rattle.cd_tasks.specs.Walks.{IsStep, clause_of, need_of, rest, visited};

    /// The walk over the ways of one need of a clause of pairs, XML elements or functions.
    ///
    /// # Errors
    ///
    /// Want of memory.
    pub fn new(alloc: Global, clause: &Clause<'g>, need: usize) -> Result<Walk<'g>, AllocError>
        requires ways { HasWays (plain_clause clause.now) }
        requires need { need < count_needs (plain_clause clause.now) }
        ensures clause { IfOk result (λ walk. clause_of walk ≡ plain_clause clause.now) }
        ensures need { IfOk result (λ walk. need_of walk ≡ need) }
        ensures rest { let all = plain_clause clause.now in
            IfOk result (λ walk. rest walk ≡ all_words (sides_of all) (members_of all)) }
        ensures visited { IfOk result (λ walk. visited walk ≡ None) }
    {
        let words = Odometer::new(alloc, count_sides(clause), count_members(clause));
        Ok(Walk {
            clause: share(clause)?,
            need,
            words,
        })
    }

    /// Gives the first word of those that are left, if one is left.
    ///
    /// # Errors
    ///
    /// Want of memory. Then nothing is visited.
    pub fn step(&mut self) -> Result<Step, AllocError>
        ensures visited { IfOk result (λ step. IsStep self.old self.new step) }
        ensures clause { clause_of self.new ≡ clause_of self.old }
        ensures need { need_of self.new ≡ need_of self.old }
        ensures rest_stays { OnErr result (rest self.new ≡ rest self.old) }
        ensures visited_stays { OnErr result (visited self.new ≡ visited self.old) }
    {
        let Some(word) = self.words.next_word()? else {
            return Ok(Step::Done);
        };
        let alloc = self.words.allocator();
        let way = way_of(alloc, &self.clause, self.need, word.as_slice())?;
        let is_full = word.as_slice().len() == count_members(&self.clause);
        self.words.visit(word);
        let questions = Questions::of(way);
        if is_full {
            Ok(Step::Full(questions))
        } else {
            Ok(Step::Partial(questions))
        }
    }

    /// Skips the words that begin with the one that was visited last.
    pub fn skip(&mut self)
        requires visited { IsSome (visited self.old) }
        ensures rest { IfSome (visited self.old)
            (λ word. rest self.new ≡ without_those_from word (rest self.old)) }
        ensures visited { visited self.new ≡ visited self.old }
        ensures clause { clause_of self.new ≡ clause_of self.old }
        ensures need { need_of self.new ≡ need_of self.old }
    {
        self.words.skip();
    }
}
