use cd_sets::question::Question;

/// A choice of what stands at a label of no cell of a row: it is in `taken`, if it is anything, and
/// the questions of `left` have values at other labels.
#[derive(Drop)]
pub(crate) struct Choice<'r> {
    pub(crate) taken: Question,
    pub(crate) left: Vec<&'r Question>,
}
