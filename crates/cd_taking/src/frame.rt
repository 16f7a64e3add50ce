//! What is left to do while a value is taken apart.
ghost use Rattle.std.specs.Prelude.{◌≡◌, ℕ, List};
ghost use Rattle.cd_model.specs.Thing.{Thing};
ghost use Rattle.cd_taking.specs.Inner.Coded.{plain_next, IsNextWithin};
ghost use Rattle.cd_taking.specs.Inner.Machine as plain;

use cd_cells::ValueId;

/// What is done with the answer of what is looked at.
#[derive(Clone, Copy)]
pub(crate) enum Frame {
    /// The first of two choices for a value: if it fails the captures are cut to so many, and the
    /// node of the second is tried.
    Or(ValueId, usize, usize),
    /// The first of two nodes that both have to take a value, and the second node.
    And(ValueId, usize),
    /// The first part of a pair, which the node with this number takes apart.
    First(ValueId, usize),
    /// The second part of it, which began after so many captures.
    Second(ValueId, usize, usize),
    /// The tag of an XML value, which the node with this number takes apart.
    Tag(ValueId, usize),
    /// The attributes of it.
    Attributes(ValueId, usize),
    /// A field of a record, which the node with this number takes apart. The fields of the node
    /// from this place on are left.
    Field(ValueId, usize, usize),
}

/// What is done next.
#[derive(Clone, Copy)]
pub(crate) enum Next {
    /// The node with this number looks at a value.
    Look(ValueId, usize),
    /// The fields of this node from this place on look at a record.
    Fields(ValueId, usize, usize),
    /// What was looked at is taken.
    Yes,
    /// It is not taken.
    No,
}

impl Next {
    /// What is done after a test.
    pub(crate) fn answered(answer: bool) -> Next
        ensures is { (table : List Thing) → plain_next table result ≡ plain.answered answer }
        ensures within { (bound : ℕ) → IsNextWithin bound result }
    {
        if answer { Next::Yes } else { Next::No }
    }
}

/// What a step came to.
#[derive(Clone, Copy)]
pub(crate) enum Doing {
    /// This is done next.
    Goes(Next),
    /// Nothing is left to do, and this is the answer.
    Ends(bool),
}
