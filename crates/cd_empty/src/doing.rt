use cd_elements::ElementId;
use cd_sets::question::Question;

/// What was done for the question of a frame.
#[derive(Drop)]
pub(crate) enum Doing {
    /// One thing.
    Worked,
    /// Nothing was left to do.
    Nothing,
    /// Nothing, as long as it isn't known whether this question has an element.
    Wants(Question),
    /// This element was found.
    Found(ElementId),
}
