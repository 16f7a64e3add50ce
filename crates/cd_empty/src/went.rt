/// How a run went on.
#[derive(Clone, Copy)]
pub(crate) enum Went {
    /// By one thing that was done.
    Worked,
    /// By a question that is assumed to have no element.
    Opened,
    /// By an element of a question.
    Found,
    /// It is at its end.
    Done,
}
