use crate::of_sequences::step::Step;

/// What is known of the things of a question as sequences: whether the empty one is among them, and
/// the steps along the others.
#[derive(Drop)]
pub(crate) struct State {
    pub(crate) ends: bool,
    pub(crate) steps: Vec<Step>,
}
