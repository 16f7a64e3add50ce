//! Words one after the other.
ghost use Rattle.std.specs.Prelude.{◌≡◌, ◌<◌, ◌≤◌, [], ◌∷◌, ◌++◌, length, None, Some, IfOk};
ghost use Rattle.std.specs.Prelude.{IfSome, IsSome};
ghost use Rattle.std.specs.Option.{option_map};
ghost use Rattle.cd_tasks.specs.Assignments.{all_words, without_those_from};
ghost use Rattle.cd_tasks.specs.Inner.AfterWords.{IsWithin, after, next_later as next_later_of};
ghost use Rattle.cd_tasks.specs.Inner.AfterWords.{words_from};

use std::alloc::{AllocError, Global};

/// Where the words that are still to be visited begin.
#[derive(Clone, Copy)]
pub(crate) enum Next {
    /// At the word of no members.
    First,
    /// At the longer words that begin with the one that was visited.
    Below,
    /// After these.
    Later,
}

/// The words of some sides and members, each visited before those that begin with it.
#[derive(Drop)]
pub(crate) struct Odometer {
    // the last side
    last: usize,
    members: usize,
    // the word that was visited
    word: Vec<usize>,
    next: Next,
    ghost short: { length word.items ≤ members },
}

impl Odometer {
    ghost use Rattle.cd_tasks.specs.Inner.Odometers.{rest_of, visited_of};

    /// All words, none of which is visited.
    pub(crate) fn new(alloc: Global, sides: usize, members: usize) -> Odometer
        requires { 0 < sides }
        ensures members { result.members ≡ members }
        ensures rest { rest_of result ≡ all_words sides members }
        ensures visited { visited_of result ≡ None }
    {
        Odometer {
            last: sides - 1,
            members,
            word: Vec::new(alloc),
            next: Next::First,
        }
    }

    /// The allocator of the words.
    pub(crate) fn allocator(&self) -> Global {
        *self.word.allocator()
    }

    /// The next word, if one is left.
    pub(crate) fn next_word(&self) -> Result<Option<Vec<usize>>, AllocError>
        ensures rest { IfOk result (λ found. rest_of self.now
            ≡ words_from self.now.last self.now.members (option_map (λ word. word.items) found)) }
        ensures short { IfOk result
            (λ found. IsWithin self.now.members (option_map (λ word. word.items) found)) }
    {
        match self.next {
            Next::First => Ok(Some(Vec::new(self.allocator()))),
            Next::Below if self.word.as_slice().len() < self.members => Ok(Some(self.longer()?)),
            Next::Below => self.later(),
            Next::Later => self.later(),
        }
    }

    // The word that was visited, with the first side for one member more.
    fn longer(&self) -> Result<Vec<usize>, AllocError>
        ensures { IfOk result (λ longer. longer.items ≡ self.now.word.items ++ 0 ∷ []) }
    {
        let mut longer = Vec::from_slice(self.allocator(), self.word.as_slice())?;
        longer.push(0)?;
        Ok(longer)
    }

    // The next word that does not begin with the one that was visited, if there is one.
    fn later(&self) -> Result<Option<Vec<usize>>, AllocError>
        ensures { IfOk result (λ found. option_map (λ word. word.items) found
            ≡ next_later_of self.now.last self.now.word.items) }
    {
        let mut word = Vec::from_slice(self.allocator(), self.word.as_slice())?;
        while let Some(side) = word.pop() {
            if side < self.last {
                word.push(side + 1)?;
                return Ok(Some(word));
            }
        }
        Ok(None)
    }

    /// Gives the next word.
    pub(crate) fn visit(&mut self, word: Vec<usize>)
        requires { length word.items ≤ self.old.members }
        ensures members { self.new.members ≡ self.old.members }
        ensures rest { rest_of self.new ≡ after self.old.last self.old.members word.items }
        ensures visited { visited_of self.new ≡ Some word.items }
    {
        self.word = word;
        self.next = Next::Below;
    }

    /// Skips the words that begin with the one that was visited.
    pub(crate) fn skip(&mut self)
        requires { IsSome (visited_of self.old) }
        ensures members { self.new.members ≡ self.old.members }
        ensures rest { IfSome (visited_of self.old)
            (λ word. rest_of self.new ≡ without_those_from word (rest_of self.old)) }
        ensures visited { visited_of self.new ≡ visited_of self.old }
    {
        self.next = Next::Later;
    }
}
