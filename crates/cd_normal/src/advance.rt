use crate::clause::Clause;

/// What became of the conjunct on the top.
#[derive(Drop)]
pub enum Advance<'g> {
    /// There was no conjunct.
    Nothing,
    /// It went on by its next formula.
    Went,
    /// No formula was left of it. It was taken away, and this is its clause.
    Complete(Clause<'g>),
}
