use cd_sets::question::Question;

/// A step along sequences: what the next item is asked, and the number of what the rest is asked.
#[derive(Drop)]
pub(crate) struct Step {
    pub(crate) item: Question,
    pub(crate) rest: usize,
}
