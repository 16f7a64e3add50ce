//! The rules of typing, and what is said where they are not met.
ghost use Rattle.std.specs.Prelude.{◌≡◌};
ghost use Rattle.cd_typing.specs.RuleTexts.{text_of};

/// What an expression owes to a rule of typing.
#[derive(Clone, Copy, PartialEq, Eq)]
pub enum Rule {
    /// What is spliced into a sequence is one.
    Splice,
    /// A tag is an atom.
    Tag,
    /// Attributes are a record.
    Attributes,
    /// Some branch takes each value.
    NoBranch,
    /// A body is of the type that its function promises.
    Result,
    /// What is applied is a function.
    NotFunction,
    /// An argument is one that the function takes.
    Argument,
    /// A condition is a truth value.
    Condition,
    /// A sequence, or a sequence of sequences, is needed.
    Sequence,
    /// What a branch gives for an item is a sequence.
    BranchSequence,
    /// What is raised is data.
    Exception,
    /// An integer is needed, or two records for `+`.
    Operand,
    /// A divisor is not 0.
    Divisor,
    /// A record is needed.
    Record,
    /// A record has the field that is taken of it.
    Field,
    /// What is compared is data.
    Comparison,
    /// A text is needed.
    Text,
    /// A sequence of integers is needed, of one at least.
    Numbers,
    /// What `main` gives is data.
    MainResult,
}

impl Rule {
    /// What is said where it is not met.
    pub fn text(self) -> &'static str
        ensures { result.now ≡ text_of self }
    {
        match self {
            Rule::Splice => "splice",
            Rule::Tag => "tag",
            Rule::Attributes => "attributes",
            Rule::NoBranch => "no branch",
            Rule::Result => "result",
            Rule::NotFunction => "not a function",
            Rule::Argument => "argument",
            Rule::Condition => "condition",
            Rule::Sequence => "sequence",
            Rule::BranchSequence => "branch sequence",
            Rule::Exception => "exception",
            Rule::Operand => "operand",
            Rule::Divisor => "divisor",
            Rule::Record => "record",
            Rule::Field => "field",
            Rule::Comparison => "comparison",
            Rule::Text => "text",
            Rule::Numbers => "numbers",
            Rule::MainResult => "main result",
        }
    }
}
