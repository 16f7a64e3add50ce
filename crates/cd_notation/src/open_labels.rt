//! The labels of the forms that stand open.
ghost use Rattle.cd_notation.specs.Inner.Ends.{AreEnds, ends_prop};

use crate::open_label::OpenLabel;
use std::alloc::{AllocError, Global};

/// The labels of the forms that stand open, by their numbers: those of the innermost form are the
/// last ones, from some place on.
#[derive(Drop)]
pub struct OpenLabels {
    open: Vec<OpenLabel>,
    // by label number: how many labels there are up to and with the last one with that number
    ends: Vec<usize>,
    ghost sound: { AreEnds open.items ends.items } by { ends_prop open.items ends.items },
}

impl OpenLabels {
    ghost use Rattle.std.specs.Prelude.{◌≡◌, ◌<◌, ◌-◌, [], ◌∷◌, ◌++◌, true, false, take, drop};
    ghost use Rattle.std.specs.Prelude.{length, reverse, IfOk, OnOk, OnErr};
    ghost use Rattle.cd_notation.specs.OpenOf.{labels};
    ghost use Rattle.cd_notation.specs.Open.{is_label_of};
    ghost use Rattle.cd_notation.specs.Inner.Ends.{end_of};

    /// No labels.
    pub fn new(alloc: Global) -> OpenLabels
        ensures { labels result ≡ [] }
    {
        OpenLabels {
            open: Vec::new(alloc),
            ends: Vec::new(alloc),
        }
    }

    /// How many labels there are.
    pub fn len(&self) -> usize
        ensures { result ≡ length (labels self.now) }
    {
        self.open.len()
    }

    // How many labels there are up to and with the last one with this number.
    fn end(&self, label: u32) -> usize
        ensures { result ≡ end_of label (reverse self.now.open.items) }
    {
        match self.ends.get(label as usize) {
            Some(end) => *end,
            None => 0,
        }
    }

    // Makes room for the end of a label.
    fn make_room(&mut self, label: u32) -> Result<(), AllocError>
        ensures room { OnOk result (label < length self.new.ends.items) }
        ensures kept { self.new.open.items ≡ self.old.open.items }
    {
        let count = label as usize + 1;
        if self.ends.len() < count {
            self.ends.resize(count, 0)?;
        }
        Ok(())
    }

    // Adds a label, for whose end there is room.
    fn push(&mut self, label: u32) -> Result<(), AllocError>
        requires { label < length self.old.ends.items }
        ensures added { OnOk result (labels self.new ≡ labels self.old ++ label ∷ []) }
        ensures kept { OnErr result (labels self.new ≡ labels self.old) }
    {
        let former = self.ends[label as usize];
        self.open.push(OpenLabel { label, former })?;
        self.ends[label as usize] = self.open.len();
        Ok(())
    }

    /// Adds a label, unless it is one of those from this place on. Answers whether it was added. In
    /// constant time.
    ///
    /// # Errors
    ///
    /// Want of memory. No label is added.
    pub fn add(&mut self, from: usize, label: u32) -> Result<bool, AllocError>
        ensures fresh { IfOk result (λ added. added ≡ true
            → (is_label_of label (drop from (labels self.old)) ≡ false)
            × (labels self.new ≡ labels self.old ++ label ∷ [])) }
        ensures again { IfOk result (λ added. added ≡ false
            → (is_label_of label (drop from (labels self.old)) ≡ true)
            × (labels self.new ≡ labels self.old)) }
        ensures kept { OnErr result (labels self.new ≡ labels self.old) }
    {
        if from < self.end(label) {
            return Ok(false);
        }
        self.make_room(label)?;
        self.push(label)?;
        Ok(true)
    }

    // Takes away the last label.
    fn pop(&mut self)
        ensures { labels self.new ≡ take (length (labels self.old) - 1) (labels self.old) }
    {
        if let Some(last) = self.open.pop() {
            self.ends[last.label as usize] = last.former;
        }
    }

    /// Takes away the labels from this place on, each in constant time.
    pub fn cut(&mut self, from: usize)
        ensures { labels self.new ≡ take from (labels self.old) }
    {
        while from < self.open.len() {
            self.pop();
        }
    }
}
