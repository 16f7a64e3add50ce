//! The rows of a clause of records, one after the other.
ghost use Rattle.std.specs.Prelude.{◌≡◌, ◌≤◌, ◌+◌, ◌++◌, length, None, IfOk, OnErr, IsSome, IfSome};
ghost use Rattle.cd_needs.specs.RecordType.{record_types};
ghost use Rattle.cd_needs.specs.PlainReasons.{plain_labels};
ghost use Rattle.cd_needs.specs.RecordTypes.{plain_row};
ghost use Rattle.cd_rules.specs.Rows.{labels_of as labels_of_types};
ghost use Rattle.cd_tasks.specs.Assignments.{all_words, row_by as row_of_word, without_those_from};

use crate::odometer::Odometer;
use crate::reasons::reasons_by;
use cd_graph::fields::Fields;
use cd_needs::labels::labels_of;
use cd_needs::record_rows::row;
use cd_needs::row::Row;
use cd_syntax::name::Name;
use std::alloc::{AllocError, Global};
use std::rc::Rc;

/// What a step of a walk over rows gave.
#[derive(Drop)]
pub enum RowStep {
    /// The row of a word that gives not all refused types a reason. Each row of a word that begins
    /// with it asks all that it asks.
    Partial(Row),
    /// A row of the clause.
    Full(Row),
    /// No word was left.
    Done,
}

/// A walk over the rows of a clause of records: the words that give its first refused types a
/// reason, each before those that begin with it.
#[derive(Drop)]
pub struct RowWalk<'g> {
    wanted: Rc<Vec<&'g Fields>>,
    refused: Rc<Vec<&'g Fields>>,
    // the labels that they name
    labels: Vec<&'g Name>,
    words: Odometer,
    ghost labelled: { plain_labels labels.items
        ≡ labels_of_types (record_types wanted.value.items ++ record_types refused.value.items) },
    ghost counted: { words.members ≡ length (record_types refused.value.items) },
}

impl<'g> RowWalk<'g> {
    ghost use Rattle.cd_tasks.specs.RowWalks.{IsStep, refused_of, rest, visited, wanted_of};

    /// The walk over the rows of the records that are in each of the wanted types and in none of
    /// the refused ones.
    ///
    /// # Errors
    ///
    /// Want of memory.
    pub fn new(
        alloc: Global,
        wanted: &Rc<Vec<&'g Fields>>,
        refused: &Rc<Vec<&'g Fields>>,
    ) -> Result<RowWalk<'g>, AllocError>
        ensures wanted { IfOk result
            (λ walk. wanted_of walk ≡ record_types wanted.now.value.items) }
        ensures refused { IfOk result
            (λ walk. refused_of walk ≡ record_types refused.now.value.items) }
        ensures rest { IfOk result (λ walk. rest walk
            ≡ all_words (length (labels_of_types (wanted_of walk ++ refused_of walk)) + 1)
            (length (refused_of walk))) }
        ensures visited { IfOk result (λ walk. visited walk ≡ None) }
    {
        let labels = labels_of(alloc, wanted.as_slice(), refused.as_slice())?;
        let sides = labels.as_slice().len() + 1;
        let words = Odometer::new(alloc, sides, refused.as_slice().len());
        Ok(RowWalk {
            wanted: wanted.clone()?,
            refused: refused.clone()?,
            labels,
            words,
        })
    }

    /// Gives the first word of those that are left, if one is left.
    ///
    /// # Errors
    ///
    /// Want of memory. Then nothing is visited.
    pub fn step(&mut self) -> Result<RowStep, AllocError>
        ensures visited { IfOk result (λ step. IsStep self.old self.new step) }
        ensures wanted { wanted_of self.new ≡ wanted_of self.old }
        ensures refused { refused_of self.new ≡ refused_of self.old }
        ensures rest_stays { OnErr result (rest self.new ≡ rest self.old) }
        ensures visited_stays { OnErr result (visited self.new ≡ visited self.old) }
    {
        let Some(word) = self.words.next_word()? else {
            return Ok(RowStep::Done);
        };
        let row = self.row_by(word.as_slice())?;
        let is_full = word.as_slice().len() == self.refused.as_slice().len();
        self.words.visit(word);
        if is_full {
            Ok(RowStep::Full(row))
        } else {
            Ok(RowStep::Partial(row))
        }
    }

    // The row that a word makes.
    fn row_by(&self, word: &[usize]) -> Result<Row, AllocError>
        requires { length word.now ≤ length (refused_of self.now) }
        ensures { IfOk result (λ row.
            plain_row row ≡ row_of_word (wanted_of self.now) (refused_of self.now) word.now) }
    {
        let alloc = self.words.allocator();
        let labels = self.labels.as_slice();
        let reasons = reasons_by(alloc, labels, word, self.refused.as_slice())?;
        row(alloc, labels, self.wanted.as_slice(), reasons.as_slice())
    }

    /// Skips the words that begin with the one that was visited last.
    pub fn skip(&mut self)
        requires visited { IsSome (visited self.old) }
        ensures rest { IfSome (visited self.old)
            (λ word. rest self.new ≡ without_those_from word (rest self.old)) }
        ensures visited { visited self.new ≡ visited self.old }
        ensures wanted { wanted_of self.new ≡ wanted_of self.old }
        ensures refused { refused_of self.new ≡ refused_of self.old }
    {
        self.words.skip();
    }
}
